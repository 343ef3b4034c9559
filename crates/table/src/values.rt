// The values of a table's places, in key order: each place has a value or none. They lie in a `Vec` of the table's own,
// or in words that are lent to it.
ghost use Rattle.std.specs.Prelude.{◌≡◌, ℕ, is_some, not, nat_eq, List, Option, None, map, length, get_or, set, replicate, unwrap_or};
ghost use Rattle.std.specs.List.{filter};
ghost use Rattle.table.specs.Places.{value_in};

use crate::word_at;
use std::mem;

pub trait Values {
    // The value of each place, where it has one.
    ghost at_places: { Self → List (Option ℕ) };

    // What a place has once this is stored there.
    ghost kept: { Option ℕ → Option ℕ };

    fn places(&self) -> usize
        ensures { result ≡ length (at_places self.now) };

    // None past the last place, where nothing is stored.
    fn at(&self, place: usize) -> Option<u64>
        ensures { result ≡ get_or (at_places self.now) place None };

    // The value that the place had.
    fn store(&mut self, place: usize, value: Option<u64>) -> Option<u64>
        ensures had { result ≡ get_or (at_places self.old) place None }
        ensures has { at_places self.new ≡ set (at_places self.old) place (kept value) };

    // How many places have a value.
    fn count(&self) -> usize
        ensures { result ≡ length (filter is_some (at_places self.now)) };
}

impl Values for Vec<Option<u64>> {
    ghost at_places = { λ values. values.items };

    ghost kept = { λ value. value };

    fn places(&self) -> usize {
        self.len()
    }

    fn at(&self, place: usize) -> Option<u64> {
        self.get(place).copied().flatten()
    }

    fn store(&mut self, place: usize, value: Option<u64>) -> Option<u64> {
        mem::replace(self.get_mut(place)?, value)
    }

    fn count(&self) -> usize {
        self.iter().filter(|value| value.is_some()).count()
    }
}

// Words that are lent. A word of 0 says that its place has no value, so no value is 0: with an `Option` a place, the
// longest table would take twice the stack.
#[derive(Drop)]
pub struct Lent<'a> {
    words: &'a mut [u64],
}

impl<'a> Lent<'a> {
    // No place has a value.
    pub fn new(words: &'a mut [u64]) -> Lent<'a>
        ensures { result.words.now ≡ replicate (length words.old) 0 }
    {
        words.fill(0);
        Lent { words }
    }
}

// The value that a word has.
fn value_of(word: u64) -> Option<u64>
    ensures { result ≡ value_in word }
{
    (word != 0).then_some(word)
}

// How many words have one.
fn count_in(words: &[u64]) -> usize
    ensures { result ≡ length (filter (λ word. not (nat_eq word 0)) words.now) }
{
    words.iter().filter(|word| **word != 0).count()
}

impl Values for Lent<'_> {
    ghost at_places = { λ lent. map value_in lent.words.now };

    ghost kept = { λ value. value_in (unwrap_or value 0) };

    fn places(&self) -> usize {
        self.words.len()
    }

    fn at(&self, place: usize) -> Option<u64> {
        value_of(word_at(self.words, place))
    }

    // By its index: no word of a slice is known once `get_mut`'s borrow is over.
    fn store(&mut self, place: usize, value: Option<u64>) -> Option<u64> {
        if place < self.words.len() {
            value_of(mem::replace(&mut self.words[place], value.unwrap_or(0)))
        } else {
            None
        }
    }

    fn count(&self) -> usize {
        count_in(self.words)
    }
}

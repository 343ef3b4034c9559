// What the programs share. The table: a place for every key, an ordered map by itself, for its places are in key order.
// Numbers at random (`random`), numbers in words, and input read into bytes that are there.
#![tactic(auto)]

ghost use Rattle.std.specs.Prelude.{◌≡◌, ◌-◌, ◌<◌, ◌≤◌, ℕ, List, Option, is_some, length, get_or, set, replicate, None, Some, IfOk, IfSome};
ghost use Rattle.std.specs.Iterator.{at_most};
ghost use Rattle.std.specs.List.{filter};

pub mod random;
pub mod values;

use std::alloc::{AllocError, Global};
use std::io;
use std::io::Read;
use std::marker::Model;
use values::{Lent, Values};

// The most places of a table.
pub const PLACES: usize = 4096;

// What a word holds where no call has written: no key of the table and no value of a trial.
pub const UNTOUCHED: u64 = 77777777777;

// A key for each place, rising; the last is 2^64 - 1.
pub fn key_of(place: usize) -> u64 {
    ((place as u64) << 52) | (u64::MAX >> 12)
}

// The word at a place; 0 past the end.
pub fn word_at(words: &[u64], place: usize) -> u64
    ensures { result ≡ get_or words.now place 0 }
{
    words.get(place).copied().unwrap_or_default()
}

// The number that a word is, from 0 to 2^64 - 1: of figures alone, for `parse` takes a plus sign too.
pub fn number(word: &[u8]) -> Option<u64> {
    if !word.iter().all(|b| b.is_ascii_digit()) {
        return None;
    }
    str::from_utf8(word).ok()?.parse().ok()
}

// A place of the table that has an entry, and the value there.
#[derive(Clone, Copy)]
pub struct Held {
    pub place: usize,
    pub value: u64,
}

impl Held {
    pub fn key(self) -> u64 {
        key_of(self.place)
    }

    // The gap after it.
    pub fn end(self) -> usize {
        self.place.saturating_add(1)
    }
}

// The value of each place's key, where the table has it. Past the last place there is none, and none is stored there.
#[derive(Drop)]
pub struct Table<V: Values = Vec<Option<u64>>> {
    values: V,
}

impl<V: Values> Model for Table<V> {
    ghost Value = { List (Option ℕ) };

    ghost view = { λ table. V.at_places table.values };
}

impl Table {
    // With so many places, and no entry.
    pub fn new(alloc: Global, places: usize) -> Result<Table, AllocError>
        ensures { IfOk result (λ table. table ≡ replicate places None) }
    {
        Ok(Table {
            values: vec![in alloc; None; places]?,
        })
    }
}

impl<'a> Table<Lent<'a>> {
    // With a place for each word, and no entry.
    pub fn lent(words: &'a mut [u64]) -> Table<Lent<'a>>
        ensures { result ≡ replicate (length words.old) None }
    {
        Table {
            values: Lent::new(words),
        }
    }
}

impl<V: Values> Table<V> {
    pub fn places(&self) -> usize
        ensures { result ≡ length self.now }
    {
        self.values.places()
    }

    pub fn get(&self, place: usize) -> Option<u64>
        ensures { result ≡ get_or self.now place None }
    {
        self.values.at(place)
    }

    // The value that the place had. Where words are lent, a value of 0 leaves it without one.
    pub fn insert(&mut self, place: usize, value: u64) -> Option<u64>
        ensures had { result ≡ get_or self.old place None }
        ensures has { self.new ≡ set self.old place (V.kept (Some value)) }
    {
        self.values.store(place, Some(value))
    }

    pub fn remove(&mut self, place: usize) -> Option<u64>
        ensures had { result ≡ get_or self.old place None }
        ensures has { self.new ≡ set self.old place (V.kept None) }
    {
        self.values.store(place, None)
    }

    // The first entry from a place on.
    pub fn next_from(&self, place: usize) -> Option<Held>
        ensures { IfSome result (λ e. place ≤ e.place) }
    {
        (place..self.places()).find_map(|place| self.entry(place))
    }

    // The last entry before a place.
    pub fn last_before(&self, place: usize) -> Option<Held>
        ensures { IfSome result (λ e. e.place < place) }
    {
        (0..place).rev().find_map(|place| self.entry(place))
    }

    fn entry(&self, place: usize) -> Option<Held>
        ensures { IfSome result (λ e. e.place ≡ place) }
    {
        self.get(place).map(|value| Held { place, value })
    }

    // The entries from one place on, before another.
    pub fn entries(&self, first: usize, last: usize) -> Entries<'_, V> {
        Entries {
            table: self,
            first,
            last,
        }
    }

    // How many entries there are.
    pub fn count(&self) -> usize
        ensures { result ≡ length (filter is_some self.now) }
    {
        self.values.count()
    }
}

// The entries of a table from one place on, before another, in order. A copy shares the table.
#[derive_where(Clone, Copy)]
pub struct Entries<'a, V: Values> {
    table: &'a Table<V>,
    first: usize,
    last: usize,
}

impl<V: Values> Iterator for Entries<'_, V> {
    type Item = Held;

    ghost remaining = { λ entries. at_most (entries.last - entries.first) };

    fn next(&mut self) -> Option<Held> {
        let held = self.table.next_from(self.first)?;
        if held.place < self.last {
            self.first = held.place + 1;
            Some(held)
        } else {
            None
        }
    }
}

// Fills the bytes from their start, until they are full or the input ends; how many it filled. A read may give fewer
// bytes than there is room for, and it alone says where the next one goes on: no iterator knows that.
pub fn read_full(input: &mut impl Read, bytes: &mut [u8]) -> io::Result<usize>
    ensures { IfOk result (λ n. n ≤ length bytes.new) }
{
    let mut n: usize = 0;
    while n < bytes.len() {
        let more = input.read(&mut bytes[n..])?;
        if more == 0 {
            break;
        }
        n += more;
    }
    Ok(n)
}

#[cfg(test)]
mod tests {
    use super::*;
    use std::test::Fail;

    // 0 too, and past the last place none.
    #[test]
    fn a_table_of_its_own_holds_any_value(rt: HostRuntime) -> Result<(), Fail> {
        let mut table = Table::new(rt.alloc(), 4)?;
        assert_eq!(rt; table.places(), 4);
        assert_eq!(rt; table.count(), 0);
        for (place, value) in [(1, 0), (3, u64::MAX), (4, 7)] {
            assert_eq!(rt; table.insert(place, value), None, "at {place}");
        }
        for (place, value) in [(0, None), (1, Some(0)), (3, Some(u64::MAX)), (4, None)] {
            assert_eq!(rt; table.get(place), value, "at {place}");
        }
        assert_eq!(rt; table.count(), 2);
        assert_eq!(rt; table.next_from(1).map(|held| held.value), Some(0));
        assert_eq!(rt; table.last_before(4).map(|held| held.value), Some(u64::MAX));
        for (first, last, n) in [(0, 4, 2), (2, 9, 1), (0, 1, 0)] {
            let entries: Vec<Held> = table.entries(first, last).collect(rt.alloc())?;
            assert_eq!(rt; entries.len(), n, "from {first}");
        }
        assert_eq!(rt; table.insert(1, 9), Some(0));
        assert_eq!(rt; table.remove(1), Some(9));
        assert_eq!(rt; table.remove(1), None);
        assert_eq!(rt; table.remove(4), None);
        Ok(())
    }

    #[test]
    fn of_words_that_are_lent_0_is_none(rt: HostRuntime) {
        let mut words = [5; 3];
        let mut table = Table::lent(&mut words);
        assert_eq!(rt; table.places(), 3);
        assert_eq!(rt; table.count(), 0);
        for (value, had) in [(7, None), (0, Some(7)), (9, None)] {
            assert_eq!(rt; table.insert(2, value), had, "with {value}");
        }
        assert_eq!(rt; table.insert(3, 1), None);
        assert_eq!(rt; table.entries(0, 3).map(|held| held.value).next(), Some(9));
        assert_eq!(rt; table.remove(2), Some(9));
        assert_eq!(rt; table.get(2), None);
    }
}

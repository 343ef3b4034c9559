// Each answer taken apart: its words go to the front of `out`, and the number to return is 0, or the refusal's.
// The number comes by itself and not with the words: C reads the one from the result, the others from `out`.
ghost use Rattle.std.specs.Prelude.{◌≤◌, ◌≡◌, List, ℕ, length};
ghost use Rattle.model.specs.ListCalls.{fronted};
ghost use Rattle.map.specs.Answers.{outcome_of, itself, option_of, found_of, seen_of};
ghost use Rattle.cursor.specs.Answers.{entry_of};
ghost use Rattle.moorpontoon.specs.Words.{nothing, amount, whether, perhaps, found, seen, stepped};
ghost use Rattle.moorpontoon.specs.Exported.{out_words, Gives};

use map::refusal::{Refusal, number};
use map::{Got, Seen};
use page::Entry;

// The words that `out` has to have, and the number for fewer.
pub const OUT: usize = 4;

pub const SHORT: u64 = 255;

// An answer that is told as words, which `put` lays at the front of `out`.
pub trait Words {
    ghost words: { Self → List ℕ };

    fn put(self, out: &mut [u64])
        requires { out_words ≤ length out.old }
        ensures { out.new ≡ fronted (words self) out.old };
}

// Words to the front.
fn lay(out: &mut [u64], words: &[u64])
    requires { length words.now ≤ length out.old }
    ensures { out.new ≡ fronted words.now out.old }
{
    out[..words.len()].copy_from_slice(words);
}

impl Words for () {
    ghost words = { nothing };

    fn put(self, _out: &mut [u64]) {}
}

impl Words for u64 {
    ghost words = { amount };

    fn put(self, out: &mut [u64]) {
        lay(out, &[self]);
    }
}

impl Words for usize {
    ghost words = { amount };

    fn put(self, out: &mut [u64]) {
        lay(out, &[self as u64]);
    }
}

impl Words for bool {
    ghost words = { whether };

    fn put(self, out: &mut [u64]) {
        lay(out, &[self as u64]);
    }
}

impl Words for Option<u64> {
    ghost words = { λ o. perhaps (option_of o) };

    fn put(self, out: &mut [u64]) {
        match self {
            Some(value) => lay(out, &[1, value]),
            None => lay(out, &[0, 0]),
        }
    }
}

impl Words for Got {
    ghost words = { λ g. found (found_of g) };

    fn put(self, out: &mut [u64]) {
        match self.value {
            Some(value) => lay(out, &[1, value, self.read as u64]),
            None => lay(out, &[0, 0, self.read as u64]),
        }
    }
}

impl Words for Seen {
    ghost words = { λ s. seen (seen_of s) };

    fn put(self, out: &mut [u64]) {
        lay(out, &[self.present as u64, self.read as u64]);
    }
}

impl Words for Option<Entry> {
    ghost words = { λ o. stepped (entry_of o) };

    fn put(self, out: &mut [u64]) {
        match self {
            Some(e) => lay(out, &[1, e.key, e.value]),
            None => lay(out, &[0, 0, 0]),
        }
    }
}

// What a call has said: its words, or the refusal's number.
pub fn give<A: Words>(out: &mut [u64], said: Result<A, Refusal>) -> u64
    requires { out_words ≤ length out.old }
    ensures { Gives A.words (outcome_of itself said) out.old out.new result }
{
    match said {
        Ok(answer) => {
            answer.put(out);
            0
        }
        Err(why) => number(why),
    }
}

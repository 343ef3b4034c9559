// Our answers in the list's words, and whether a line tells the same. A refusal, or a line that is not understood, is
// never the same. `Wrong` is one of these and no error: it ends nothing, and is counted like any answer.
use crate::text::{cut, is_end, past, word};

#[derive(Clone, Copy)]
pub enum Ours<'a> {
    // Of a call that answers nothing.
    Done,
    // Std's None.
    Absent,
    // A number; 1 for true and 0 for false.
    One(u64),
    Entry(u64, u64),
    // Insert after's `ok` and `no`.
    Fits,
    Misplaced,
    // A list of keys or of values, in the column that it was written into.
    Listed(&'a [u64]),
    // A list of pairs: the keys in one column, and as many values in the other.
    Pairs(&'a [u64], &'a [u64]),
    // A refusal, or a line that is not understood. One of them, since it is held against the list as they are.
    Wrong,
}

impl From<bool> for Ours<'_> {
    fn from(yes: bool) -> Self {
        Ours::One(u64::from(yes))
    }
}

impl From<Option<u64>> for Ours<'_> {
    fn from(value: Option<u64>) -> Self {
        match value {
            Some(n) => Ours::One(n),
            None => Ours::Absent,
        }
    }
}

// Whether the last word of the line is this one. The byte before a word is not looked at.
fn is_last(answer: &[u8], last: &[u8]) -> bool {
    match answer.split_first() {
        Some((_, text)) => word(text) == last && is_end(cut(text).1),
        None => false,
    }
}

// What is left of a text after these numbers, where they are the next words.
fn past_all<'a>(text: &'a [u8], numbers: &[u64]) -> Option<&'a [u8]> {
    numbers.iter().try_fold(text, |rest, n| past(rest, *n))
}

// Whether the numbers stand there, and then the line ends.
fn are_told(answer: &[u8], numbers: &[u64]) -> bool {
    past_all(answer, numbers).is_some_and(is_end)
}

// Whether a list's length stands there, then its numbers, and then the line ends.
fn is_listed(answer: &[u8], numbers: &[u64]) -> bool {
    past(answer, numbers.len() as u64).is_some_and(|rest| are_told(rest, numbers))
}

// Whether there stands how many pairs there are, then each pair, and then the line ends.
fn are_paired(answer: &[u8], keys: &[u64], values: &[u64]) -> bool {
    let Some(pairs) = past(answer, keys.len() as u64) else {
        return false;
    };
    keys.iter()
        .zip(values)
        .try_fold(pairs, |rest, (key, value)| past_all(rest, &[*key, *value]))
        .is_some_and(is_end)
}

impl Ours<'_> {
    // Whether a line's answer is this one.
    pub fn is_told(self, answer: &[u8]) -> bool {
        match self {
            Ours::Done => is_end(answer),
            Ours::Absent => is_last(answer, b"-"),
            Ours::One(n) => are_told(answer, &[n]),
            Ours::Entry(key, value) => are_told(answer, &[key, value]),
            Ours::Fits => is_last(answer, b"ok"),
            Ours::Misplaced => is_last(answer, b"no"),
            Ours::Listed(numbers) => is_listed(answer, numbers),
            Ours::Pairs(keys, values) => are_paired(answer, keys, values),
            Ours::Wrong => false,
        }
    }
}

// The words of a command: the program's arguments in one line of bytes, for an argument need not be text, and what
// stands in such a line.
use std::env::{Env, FillError};

// Bytes of the longest line: two names of files and some numbers. What does not fit is complained of, so the line is
// an array and no `Vec`, which would have no limit and could want memory.
pub const LINE: usize = 12288;

// ---- a line from the program's arguments

// How many arguments there are, the program's own name among them. Not by `args`, which could want memory.
fn arg_count(rt: &impl Env) -> usize {
    let mut first = [0u8; 1];
    for i in 0..usize::MAX {
        if let Err(FillError::NotPresent) = rt.arg(i, &mut first) {
            return i;
        }
    }
    usize::MAX
}

// Argument `i` behind a 0 at a place of the line, where there is room for both; the place after it.
fn add(rt: &impl Env, line: &mut [u8], at: usize, i: usize) -> Option<usize> {
    let (separator, room) = line.get_mut(at..)?.split_first_mut()?;
    *separator = 0;
    let n = rt.arg(i, room).ok()?;
    at.checked_add(n)?.checked_add(1)
}

// All arguments but the program's own name, each behind a 0, where the line has room for them.
pub fn gather<'a>(rt: &impl Env, line: &'a mut [u8]) -> Option<&'a [u8]> {
    let mut at = 0;
    for i in 1..arg_count(rt) {
        at = add(rt, line, at, i)?;
    }
    line.get(..at)
}

// ---- words

// The words of a line, each behind a separator: a 0 in the program's arguments, whose names of files may have spaces in
// them, and a space in text.
#[derive(Clone, Copy)]
pub struct Words<'a> {
    line: &'a [u8],
    separator: u8,
}

impl<'a> Words<'a> {
    pub fn new(line: &'a [u8], separator: u8) -> Words<'a> {
        Words { line, separator }
    }

    pub fn count(self) -> usize {
        self.line
            .iter()
            .filter(|byte| **byte == self.separator)
            .count()
    }

    // Word `i`, where there are so many.
    pub fn get(self, i: usize) -> Option<&'a [u8]> {
        self.line
            .split(|byte| *byte == self.separator)
            .skip(1)
            .nth(i)
    }

    // Word `i`; nothing where there are fewer.
    pub fn word(self, i: usize) -> &'a [u8] {
        self.get(i).unwrap_or_default()
    }
}

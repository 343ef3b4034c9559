// What a trial counts, for the line that it prints. An answer that is not the table's is counted as wrong, and the
// trial goes on.
use std::num::Wrapping;

#[derive(Clone, Copy, Default)]
pub struct Tally {
    // Keys that were new, and that were written over or replaced.
    pub new: Wrapping<u64>,
    pub over: Wrapping<u64>,
    // Refusals for room, and misplaced keys.
    pub full: Wrapping<u64>,
    pub misplaced: Wrapping<u64>,
    // Keys removed, and found absent by a removal or a replacement.
    pub struck: Wrapping<u64>,
    pub absent: Wrapping<u64>,
    // The pages that searches read, and the entries that lists wrote.
    pub read: Wrapping<u64>,
    pub listed: Wrapping<u64>,
    pub wrong: Wrapping<u64>,
}

impl Tally {
    // Whether an answer is the table's.
    pub fn hold(&mut self, right: bool) {
        if !right {
            self.wrong += 1;
        }
    }

    // How many entries a list wrote, where they are the table's.
    pub fn list(&mut self, listed: Option<usize>) {
        match listed {
            Some(n) => self.listed += n as u64,
            None => self.wrong += 1,
        }
    }

    // A key that is stored, and one that is removed, by the value that it had: each has counts of its own.
    pub fn store(&mut self, had: Option<u64>) {
        match had {
            Some(_) => self.over += 1,
            None => self.new += 1,
        }
    }

    pub fn strike(&mut self, had: Option<u64>) {
        match had {
            Some(_) => self.struck += 1,
            None => self.absent += 1,
        }
    }
}

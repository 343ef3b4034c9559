// The steps of a script, as its letters say: a letter, two figures and a key of two figures. The figures are the kinds
// of bounds, a kind of pool, a page, a value or the hundreds of a number of words.
use crate::calls::Call;
use crate::lists::{Bounds, List};
use map::bound::Bound;

// What is done with the pool.
#[derive(Clone, Copy)]
pub enum PoolStep {
    Call(Call),
    // A list with room for four, and one that is printed with what it wrote.
    List(List, Bounds),
    Entries(Bounds),
    // A list of one.
    Only(Bounds),
    // Playback into slices of two lengths.
    Play(usize, usize),
    // A word read, and one written.
    Word(usize),
    Write(usize, u64),
    // From a new map in so many words.
    CopyIn(usize),
    Page(usize),
    Gap,
}

// What is done with all the words.
#[derive(Clone, Copy)]
pub enum Turn {
    // The pool's words made as new, kept in the other words, or traded with them; how many have changed since.
    Fresh,
    Keep,
    Trade,
    Changed,
    // Into so many words.
    CopyOut(usize),
    Pool(PoolStep),
    // By a letter that is none: it is printed as a turn that tells nothing.
    Nothing,
}

#[derive(Clone, Copy)]
pub enum Step {
    // The pool has so many words.
    Take(usize),
    Turn(Turn),
}

// A figure; the last number that there is for a `z`, and 0 for anything else.
fn figure(byte: u8) -> u64 {
    match byte {
        b'z' => u64::MAX,
        b'0'..=b'9' => (byte - b'0') as u64,
        _ => 0,
    }
}

// A number of two figures; after a `z`, counted down from the last that there is.
fn number(tens: u64, ones: u64) -> u64 {
    if 9 < ones {
        0
    } else if 9 < tens {
        u64::MAX - ones
    } else {
        10 * tens + ones
    }
}

// What stands after a letter. The value is of the figures, or where there are none it is the key.
#[derive(Clone, Copy)]
struct Given {
    first: u64,
    second: u64,
    key: u64,
    value: u64,
}

impl Given {
    fn read(figures: [u8; 4]) -> Given {
        let [first, second, tens, ones] = figures;
        let key = number(figure(tens), figure(ones));
        let value = if second == b'-' {
            key
        } else {
            number(figure(first), figure(second))
        };
        Given {
            first: figure(first),
            second: figure(second),
            key,
            value,
        }
    }

    // A number of three figures.
    fn words(self) -> usize {
        if 9 < self.first || 99 < self.key {
            return 0;
        }
        (100 * self.first + self.key) as usize
    }

    fn bound(self) -> Bound {
        Bound {
            kind: self.first,
            key: self.key,
        }
    }

    // Two bounds, both at the key.
    fn bounds(self) -> Bounds {
        Bounds {
            lower: self.bound(),
            upper: Bound {
                kind: self.second,
                key: self.key,
            },
        }
    }
}

fn call_by(letter: u8, given: Given) -> Option<Call> {
    let Given { key, value, .. } = given;
    Some(match letter {
        b'I' => Call::Insert(key, value),
        b'X' => Call::Replace(key, value),
        b'R' => Call::Remove(key),
        b'G' => Call::Get(key),
        b'K' => Call::Contains(key),
        b'a' => Call::SetInsert(key),
        b'f' => Call::SetRemove(key),
        b'b' => Call::SetGet(key),
        b'd' => Call::SetContains(key),
        b'm' => Call::Make(given.first),
        b'C' => Call::Clear,
        b'O' => Call::Count,
        b'Z' => Call::IsEmpty,
        b'k' => Call::Check,
        b'l' => Call::Lower(given.bound()),
        b'u' => Call::Upper(given.bound()),
        b'n' => Call::Next,
        b'p' => Call::Prev,
        b'N' => Call::PeekNext,
        b'P' => Call::PeekPrev,
        b'w' => Call::WriteNext(value),
        b'W' => Call::WritePrev(value),
        b'i' => Call::InsertAfter(key, value),
        b'r' => Call::RemoveNext,
        b'c' => Call::Close,
        _ => return None,
    })
}

fn pool_step_by(letter: u8, given: Given) -> Option<PoolStep> {
    Some(match letter {
        b'E' => PoolStep::List(List::Entries, given.bounds()),
        b'H' => PoolStep::List(List::Keys, given.bounds()),
        b'V' => PoolStep::List(List::Values, given.bounds()),
        b'j' => PoolStep::List(List::SetKeys, given.bounds()),
        b'B' => PoolStep::Entries(given.bounds()),
        b'o' => PoolStep::Only(given.bounds()),
        b'q' => PoolStep::Play(given.first as usize, given.key as usize),
        b'v' => PoolStep::Word(given.value as usize),
        b'h' => PoolStep::Write(given.value as usize, given.key),
        b'Y' => PoolStep::CopyIn(given.words()),
        b'D' => PoolStep::Page(given.first as usize),
        b'g' => PoolStep::Gap,
        _ => PoolStep::Call(call_by(letter, given)?),
    })
}

fn turn_by(letter: u8, given: Given) -> Turn {
    match letter {
        b'z' => Turn::Fresh,
        b's' => Turn::Keep,
        b't' => Turn::Trade,
        b'x' => Turn::Changed,
        b'y' => Turn::CopyOut(given.words()),
        _ => pool_step_by(letter, given).map_or(Turn::Nothing, Turn::Pool),
    }
}

impl Step {
    pub fn read(letter: u8, figures: [u8; 4]) -> Step {
        let given = Given::read(figures);
        match letter {
            b'=' => Step::Take(given.words()),
            _ => Step::Turn(turn_by(letter, given)),
        }
    }
}

// Scripts: text that is printed as it stands, and steps on a pool. A step is a mark, a letter, two figures and a key of
// two figures. After a ~ its answer is printed in words, with a star where a word of the pool has changed; after a + in
// more words; after a # by its number; after a ^ not at all.
ghost use Rattle.std.specs.Prelude.{◌≤◌, length};

use crate::calls::Call;
use crate::limit::{FROM_START, TO_END, included};
use crate::lists::{Bounds, List};
use crate::pages::page;
use crate::space::{Part, Space, copy_in};
use crate::step::{PoolStep, Step, Turn};
use crate::told::Told;
use map::bound::Bound;
use map::refusal::Refusal;
use std::io;
use table::{UNTOUCHED, word_at};

// ---- lists and gaps

fn listed(answer: Result<usize, Refusal>) -> Told {
    answer.map_or_else(Told::Refused, Told::Listed)
}

// How many entries a list wrote, or its refusal's number.
fn number(answer: Result<usize, Refusal>) -> u64 {
    answer.map_or_else(map::refusal::number, |n| n as u64)
}

// A list with room for four entries.
fn list(pool: &[u64], list: List, bounds: Bounds) -> Told {
    let mut keys = [0u64; 4];
    let mut values = [0u64; 4];
    listed(list.write(pool, bounds, &mut keys, &mut values))
}

// What a list answered, and the first four words of its slices; 0 past an end.
fn columns(rt: &impl Print, told: Told, keys: &[u64], values: &[u64]) -> io::Result<()> {
    print!(rt; " {told}")?;
    for i in 0..4 {
        print!(rt; " {}:{}", word_at(keys, i), word_at(values, i))?;
    }
    Ok(())
}

fn entries(rt: &impl Print, pool: &[u64], bounds: Bounds) -> io::Result<()> {
    let mut keys = [0u64; 4];
    let mut values = [0u64; 4];
    let told = listed(List::Entries.write(pool, bounds, &mut keys, &mut values));
    columns(rt, told, &keys, &values)
}

// Playback into slices of two lengths, at most 4.
fn play(rt: &impl Print, pool: &mut [u64], a: usize, b: usize) -> io::Result<()> {
    let mut keys = [0u64; 4];
    let mut values = [0u64; 4];
    if let (Some(keys), Some(values)) = (keys.get_mut(..a), values.get_mut(..b)) {
        let told = listed(cursor::play::play(pool, keys, values));
        columns(rt, told, keys, values)?;
    }
    Ok(())
}

// The key and value that a list of one has, and the word after them.
fn only(rt: &impl Print, pool: &[u64], bounds: Bounds) -> io::Result<()> {
    let mut keys = [UNTOUCHED; 2];
    let mut values = [UNTOUCHED; 2];
    let n = number(List::Entries.write(pool, bounds, &mut keys, &mut values));
    print!(rt;
        ", list of {n}: {} {}, then {}",
        keys[0], values[0], keys[1]
    )
}

// How many keys there are between two bounds.
fn keys(pool: &[u64], lower: Bound, upper: Bound) -> Result<usize, Refusal> {
    let mut keys = [0u64; 16];
    List::Keys.write(pool, Bounds { lower, upper }, &mut keys, &mut [])
}

// How many there are before the gap, up to the entry that a peek shows there, and after it.
fn before(pool: &[u64]) -> Result<usize, Refusal> {
    match cursor::peek_prev(pool)? {
        Some(entry) => keys(pool, FROM_START, included(entry.key)),
        None => Ok(0),
    }
}

fn after(pool: &[u64]) -> Result<usize, Refusal> {
    match cursor::peek_next(pool)? {
        Some(entry) => keys(pool, included(entry.key), TO_END),
        None => Ok(0),
    }
}

// The gap's place.
fn gap(rt: &impl Print, pool: &[u64]) -> io::Result<()> {
    print!(rt; " {} and {}", number(before(pool)), number(after(pool)))
}

// ---- steps

// What is told of a step on the pool; none of one that prints by itself.
fn on_pool(rt: &impl Print, pool: &mut [u64], step: PoolStep) -> io::Result<Option<Told>> {
    match step {
        PoolStep::Call(call) => return Ok(Some(call.on(pool))),
        PoolStep::List(which, bounds) => return Ok(Some(list(pool, which, bounds))),
        PoolStep::Word(place) => return Ok(Some(Told::Is(word_at(pool, place)))),
        PoolStep::CopyIn(words) => return Ok(copy_in(pool, words)),
        PoolStep::Page(number) => return page(rt, pool, number),
        PoolStep::Entries(bounds) => entries(rt, pool, bounds)?,
        PoolStep::Only(bounds) => only(rt, pool, bounds)?,
        PoolStep::Play(a, b) => play(rt, pool, a, b)?,
        PoolStep::Gap => gap(rt, pool)?,
        PoolStep::Write(place, value) => {
            if let Some(word) = pool.get_mut(place) {
                *word = value;
            }
        }
    }
    Ok(None)
}

// How an answer is printed.
#[derive(Clone, Copy, PartialEq, Eq)]
enum Mark {
    InWords,
    InFull,
    ByNumber,
    Silent,
}

impl Mark {
    // No `TryFrom`: a byte that is none is text, and nobody is told why.
    fn of(byte: u8) -> Option<Mark> {
        match byte {
            b'~' => Some(Mark::InWords),
            b'+' => Some(Mark::InFull),
            b'#' => Some(Mark::ByNumber),
            b'^' => Some(Mark::Silent),
            _ => None,
        }
    }

    fn print(self, rt: &impl Print, told: Option<Told>, changed: bool) -> io::Result<()> {
        match (self, told) {
            (Mark::InWords, Some(told)) => print!(rt; " {told}")?,
            (Mark::InFull, Some(told)) => print!(rt; " {}", told.in_full())?,
            (Mark::ByNumber, told) => print!(rt; " {}", told.map_or(0, Told::number))?,
            (Mark::InWords | Mark::InFull, None) | (Mark::Silent, _) => {}
        }
        if changed && self == Mark::InWords {
            print!(rt; " *")?;
        }
        Ok(())
    }
}

// A script on the way: its space, and how many words the pool has.
#[derive(Drop)]
struct Stage {
    space: Space,
    words: usize,
}

impl Stage {
    fn told(&mut self, rt: &impl Print, turn: Turn) -> io::Result<Option<Told>> {
        match turn {
            Turn::Fresh => self.space.copy(Part::Fresh, Part::Pool),
            Turn::Keep => self.space.copy(Part::Pool, Part::Others),
            Turn::Trade => self.space.trade(),
            Turn::Changed => return Ok(Some(Told::Is(self.space.changed(Part::Others) as u64))),
            Turn::CopyOut(words) => return Ok(self.space.copy_out(self.words, words)),
            Turn::Pool(step) => {
                if let Some(pool) = self.space.pool(self.words) {
                    return on_pool(rt, pool, step);
                }
            }
            Turn::Nothing => {}
        }
        Ok(None)
    }

    // A step, and what is printed of it.
    fn step(&mut self, rt: &impl Print, mark: Mark, step: Step) -> io::Result<()> {
        match step {
            Step::Take(words) => {
                self.words = words;
                Ok(())
            }
            Step::Turn(turn) => {
                self.space.copy(Part::Pool, Part::Before);
                let told = self.told(rt, turn)?;
                mark.print(rt, told, self.space.changed(Part::Before) != 0)
            }
        }
    }
}

// ---- scripts

// The step that a script begins with, and what is left after it; past the end every byte is 0.
fn cut(script: &[u8]) -> (Step, &[u8])
    ensures { length result.1.now ≤ length script.now }
{
    let (text, rest) = script.split_at(script.len().min(5));
    let mut bytes = [0u8; 5];
    bytes[..text.len()].copy_from_slice(text);
    let [letter, first, second, tens, ones] = bytes;
    (Step::read(letter, [first, second, tens, ones]), rest)
}

pub fn run(rt: &impl Print, script: &[u8]) -> io::Result<()> {
    let mut stage = Stage {
        space: Space::new(),
        words: 0,
    };
    let mut rest = script;
    while let Some((byte, after)) = rest.split_first() {
        rest = after;
        match Mark::of(*byte) {
            Some(mark) => {
                let (step, after) = cut(rest);
                rest = after;
                stage.step(rt, mark, step)?;
            }
            None => rt.write_all(&[*byte])?,
        }
    }
    Ok(())
}

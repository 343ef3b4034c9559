// Calls on real pools, and their answers. First the script in the file stdin: corners of map and set, a line each, and
// of the cursor document 01's bench cases (a) to (n) and corners, a line each. Then trials of thousands of mixed calls
// on cursors, maps and sets, each held against a table with a place for every key, which is an ordered map by itself.
#![tactic(auto)]

pub mod calls;
pub mod entries;
pub mod gaps;
pub mod limit;
pub mod lists;
pub mod pages;
pub mod script;
pub mod space;
pub mod step;
pub mod tally;
pub mod told;
pub mod trial;

use crate::trial::{Kind, Plan, WORDS};
use std::io;
use table::UNTOUCHED;

// Bytes of the longest script; what is longer is cut off.
const MOST: usize = 8192;

fn plan(kind: Kind, words: usize, calls: u64, places: usize) -> Plan {
    Plan {
        kind,
        words,
        calls,
        places,
    }
}

fn plans() -> [Plan; 13] {
    [
        plan(Kind::Cursor, 128, 1000, 14),
        plan(Kind::Cursor, 192, 1500, 30),
        plan(Kind::Cursor, 2144, 4000, 1000),
        plan(Kind::Cursor, 8192, 10000, 4096),
        plan(Kind::Map, 128, 4000, 14),
        plan(Kind::Map, 160, 4000, 20),
        plan(Kind::Set, 160, 2000, 20),
        plan(Kind::Map, 192, 4000, 30),
        plan(Kind::Map, 2144, 8000, 500),
        plan(Kind::Set, 2144, 6000, 500),
        plan(Kind::Map, 2176, 8000, 3000),
        plan(Kind::Set, 8192, 6000, 4096),
        plan(Kind::Map, 8192, 8000, 4096),
    ]
}

// Each trial makes its pool in the words that the one before it left.
fn trials(rt: &impl Print) -> io::Result<()> {
    let mut words = [UNTOUCHED; WORDS];
    for plan in plans() {
        trial::run(rt, &mut words, plan)?;
    }
    Ok(())
}

// The script is on standard input.
fn scripts(rt: &(impl Input + Print)) -> io::Result<()> {
    let mut script = [0u8; MOST];
    let mut input = rt.reader();
    let n = table::read_full(&mut input, &mut script)?;
    script::run(rt, &script[..n])
}

fn main(rt: HostRuntime) -> io::Result<()> {
    scripts(&rt)?;
    trials(&rt)
}

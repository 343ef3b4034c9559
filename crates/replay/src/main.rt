// The replay: calls that were recorded on Rust's own BTreeMap, BTreeSet and CursorMut, with std's answers
// (rust/record/record.rs made the list, with rustc 1.95.0), are made again on a pool of 253 pages, and every answer is
// compared. A line that is not understood differs, and so does a refusal, but for insert after's 6 where std answers
// UnorderedKeyError.
#![tactic(auto)]

pub mod answer;
pub mod calls;
pub mod line;
pub mod lists;
pub mod tally;
pub mod text;

use crate::line::Line;
use crate::tally::Tally;
use map::refusal::{MAP, SET};
use std::io;
use table::UNTOUCHED;

// Bytes of the longest list, and words of the pool. The bytes are an array and no `Vec`: what is longer is cut off, and
// reading can't want memory.
const MOST: usize = 163840;

const WORDS: usize = 8192;

// Whether the answer to a call is std's. The list is given from what stands after the call's name on.
fn is_right(pool: &mut [u64], name: &[u8], text: &[u8]) -> bool {
    let Some(line) = Line::read(text) else {
        return false;
    };
    calls::tells(pool, text::word(name), line.numbers.as_slice(), line.answer)
}

// A new map or set, whose line is the title of a section.
fn begin(
    rt: &impl Print,
    pool: &mut [u64],
    title: &[u8],
    kind: u64,
    tally: &mut Tally,
) -> io::Result<()> {
    tally.end_section(rt)?;
    rt.write_all(title)?;
    rt.write_all(b"\n")?;
    let _ = map::pool::make(pool, kind);
    Ok(())
}

// The line that the text begins with: a new map or set, or a call.
fn replay_line<'a>(
    rt: &impl Print,
    pool: &mut [u64],
    text: &'a [u8],
    tally: &mut Tally<'a>,
) -> io::Result<()> {
    match text::word(text) {
        b"map" => begin(rt, pool, text::line(text), MAP, tally),
        b"set" => begin(rt, pool, text::line(text), SET, tally),
        _ => {
            let (name, rest) = text::cut(text);
            tally.count(name, is_right(pool, name, rest));
            tally.look(pool);
            Ok(())
        }
    }
}

// Every line. Not by `lines` or `split`: a line is read from its start to the end of the text, since a word may stand
// on the line after.
fn replay(rt: &impl Print, text: &[u8]) -> io::Result<()> {
    let mut pool = [UNTOUCHED; WORDS];
    let mut tally = Tally::new();
    let mut rest = text;
    while !rest.is_empty() {
        replay_line(rt, &mut pool, rest, &mut tally)?;
        let Some(newline) = rest.iter().position(|b| *b == b'\n') else {
            break;
        };
        rest = &rest[newline + 1..];
    }
    tally.end_section(rt)?;
    tally.report(rt)
}

fn main(rt: HostRuntime) -> io::Result<()> {
    let mut space = [0u8; MOST];
    let mut input = rt.reader();
    let n = table::read_full(&mut input, &mut space)?;
    replay(&rt, &space[..n])
}

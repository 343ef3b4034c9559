// The words of a pool, and the commands that print entries, a line each: list, and scrub, which opens the cursor and
// closes it by itself. They go on only with the entry that an answer carries.
use crate::command::by_number;
use crate::kind::Kind;
use crate::reply::{Line, Reply, Stop};
use map::refusal::Refusal;
use model::{MOST, MOST_PAGES};
use page::Entry;
use std::io;
use std::ops::Bound;

// The head's word 1: how many pages there are.
pub const PAGES: usize = 1;

// ---- list

// The first entry between two bounds, by the list of a pool of its own kind; a set has no places.
fn first(pool: &[u64], from: Bound<u64>, to: Bound<u64>) -> Result<Option<Entry>, Refusal> {
    let lower = by_number(from);
    let upper = by_number(to);
    let mut ticks = [0];
    let mut places = [0];
    let n = match Kind::of(pool) {
        Kind::Map => map::list::entries(pool, lower, upper, &mut ticks, &mut places)?,
        Kind::Set => map::set::list(pool, lower, upper, &mut ticks)?,
    };
    if n == 0 {
        return Ok(None);
    }
    Ok(Some(Entry {
        key: ticks[0],
        value: places[0],
    }))
}

fn print(rt: &impl Print, kind: Kind, entry: Entry) -> io::Result<()> {
    match kind {
        Kind::Map => rt.println(Line(entry)),
        Kind::Set => println!(rt; "tick {}", entry.key),
    }
}

// The entries between two bounds, each the first after the one before it. No pool has as many as there are turns.
pub fn list(
    rt: &impl Print,
    pool: &[u64],
    from: Bound<u64>,
    to: Bound<u64>,
) -> Result<Reply, Stop> {
    let mut after = from;
    for n in 0..=MOST * MOST_PAGES {
        let Some(entry) = first(pool, after, to)? else {
            return Ok(Reply::Listed(n));
        };
        print(rt, Kind::of(pool), entry)?;
        after = Bound::Excluded(entry.key);
    }
    Ok(Reply::Listed(MOST * MOST_PAGES + 1))
}

// ---- scrub

// So many steps; what ends them is the reply.
fn steps(rt: &impl Print, pool: &mut [u64], most: u64) -> Result<Reply, Stop> {
    for _ in 0..most {
        let Some(entry) = cursor::next(pool)? else {
            return Ok(Reply::End);
        };
        rt.println(Line(entry))?;
    }
    Ok(Reply::Told)
}

// Steps from the lower bound of a tick, included.
pub fn scrub(rt: &impl Print, pool: &mut [u64], tick: u64, most: u64) -> Result<Reply, Stop> {
    cursor::opening::lower(pool, by_number(Bound::Included(tick)))?;
    let last = steps(rt, pool, most);
    // It is open, so it is closed and nothing refused.
    let _ = cursor::close(pool);
    last
}

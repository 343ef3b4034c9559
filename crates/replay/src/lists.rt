// Lists: how many entries there are between two bounds, and each. A map's list is of pairs, of keys or of values; a
// set's is of keys. Each is held against its line where the call wrote it, in columns that are arrays and no `Vec`: a
// list can't want memory.
use crate::answer::Ours;
use map::bound::Bound;
use map::refusal::Refusal;

// Words of a column: no list of std's is so long. Keys and values have a column each, as the calls write them.
const ROOM: usize = 1024;

// Two bounds, as the library's calls take them.
#[derive(Clone, Copy)]
pub struct Bounds {
    pub lower: Bound,
    pub upper: Bound,
}

// As many words of a column as the list wrote.
fn wrote(words: &[u64], n: usize) -> &[u64] {
    words.get(..n).unwrap_or(words)
}

fn column(answer: Result<usize, Refusal>, words: &[u64]) -> Ours<'_> {
    match answer {
        Ok(n) => Ours::Listed(wrote(words, n)),
        Err(_) => Ours::Wrong,
    }
}

fn pairs<'a>(answer: Result<usize, Refusal>, keys: &'a [u64], values: &'a [u64]) -> Ours<'a> {
    match answer {
        Ok(n) => Ours::Pairs(wrote(keys, n), wrote(values, n)),
        Err(_) => Ours::Wrong,
    }
}

// Whether a line's answer is the list of this call; the three after it do the same for theirs.
pub fn tells_entries(pool: &[u64], b: Bounds, told: &[u8]) -> bool {
    let mut keys = [0u64; ROOM];
    let mut values = [0u64; ROOM];
    let answer = map::list::entries(pool, b.lower, b.upper, &mut keys, &mut values);
    pairs(answer, &keys, &values).is_told(told)
}

pub fn tells_keys(pool: &[u64], b: Bounds, told: &[u8]) -> bool {
    let mut keys = [0u64; ROOM];
    let answer = map::list::keys(pool, b.lower, b.upper, &mut keys);
    column(answer, &keys).is_told(told)
}

pub fn tells_values(pool: &[u64], b: Bounds, told: &[u8]) -> bool {
    let mut values = [0u64; ROOM];
    let answer = map::list::values(pool, b.lower, b.upper, &mut values);
    column(answer, &values).is_told(told)
}

pub fn tells_set_keys(pool: &[u64], b: Bounds, told: &[u8]) -> bool {
    let mut keys = [0u64; ROOM];
    let answer = map::set::list(pool, b.lower, b.upper, &mut keys);
    column(answer, &keys).is_told(told)
}

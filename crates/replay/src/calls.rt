// The calls of the list, by name, each made on the pool. How many numbers a line gives comes first; of those with one
// number a set has its own.
use crate::answer::Ours;
use crate::lists::{self, Bounds};
use map::bound::Bound;
use map::refusal::{MAP, Refusal};
use model::KIND;
use table::word_at;

fn step(pool: &mut [u64], name: &[u8]) -> Result<Ours<'static>, Refusal> {
    let entry = match name {
        b"next" => cursor::next(pool)?,
        b"prev" => cursor::prev(pool)?,
        b"peek-next" => cursor::peek_next(pool)?,
        b"peek-prev" => cursor::peek_prev(pool)?,
        b"remove-next" => cursor::edit::remove_next(pool)?,
        _ => return Ok(Ours::Wrong),
    };
    Ok(entry.map_or(Ours::Absent, |entry| {
        Ours::Entry(entry.key, entry.value)
    }))
}

fn given_none(pool: &mut [u64], name: &[u8]) -> Result<Ours<'static>, Refusal> {
    match name {
        b"len" => Ok(Ours::One(map::pool::count(pool)?)),
        b"is-empty" => Ok(Ours::from(map::pool::is_empty(pool)?)),
        b"clear" => map::pool::clear(pool).and(Ok(Ours::Done)),
        b"close" => cursor::close(pool).and(Ok(Ours::Done)),
        _ => step(pool, name),
    }
}

fn given_one(pool: &mut [u64], name: &[u8], a: u64) -> Result<Ours<'static>, Refusal> {
    match name {
        b"get" => Ok(Ours::from(map::get(pool, a)?.value)),
        b"contains" => Ok(Ours::from(map::contains(pool, a)?.present)),
        b"remove" => Ok(Ours::from(map::remove(pool, a)?)),
        b"write-next" => Ok(Ours::from(cursor::write_next(pool, a)?)),
        b"write-prev" => Ok(Ours::from(cursor::write_prev(pool, a)?)),
        _ => Ok(Ours::Wrong),
    }
}

fn set_given_one(pool: &mut [u64], name: &[u8], key: u64) -> Result<Ours<'static>, Refusal> {
    match name {
        b"insert" => Ok(Ours::from(map::set::insert(pool, key)?)),
        b"get" => Ok(Ours::from(map::set::get(pool, key)?.value)),
        b"contains" => Ok(Ours::from(map::set::contains(pool, key)?.present)),
        b"remove" => Ok(Ours::from(map::set::remove(pool, key)?)),
        _ => Ok(Ours::Wrong),
    }
}

fn insert_after(pool: &mut [u64], key: u64, value: u64) -> Result<Ours<'static>, Refusal> {
    match cursor::edit::insert_after(pool, key, value) {
        Ok(()) => Ok(Ours::Fits),
        Err(Refusal::Misplaced) => Ok(Ours::Misplaced),
        Err(why) => Err(why),
    }
}

fn given_two(pool: &mut [u64], name: &[u8], a: u64, b: u64) -> Result<Ours<'static>, Refusal> {
    match name {
        b"insert" => Ok(Ours::from(map::insert(pool, a, b)?)),
        b"replace" => Ok(Ours::from(map::replace(pool, a, b)?)),
        b"insert-after" => insert_after(pool, a, b),
        b"lower" => cursor::opening::lower(pool, Bound { kind: a, key: b }).and(Ok(Ours::Done)),
        b"upper" => cursor::opening::upper(pool, Bound { kind: a, key: b }).and(Ok(Ours::Done)),
        _ => Ok(Ours::Wrong),
    }
}

// Whether a line's answer is the list; a set's `range` lists its keys. Not inlined: its columns are then on the stack
// only as long as it runs, and not below all that prints.
#[inline(never)]
fn tells_list(pool: &[u64], name: &[u8], b: Bounds, told: &[u8]) -> bool {
    match name {
        b"range" if word_at(pool, KIND) == MAP => lists::tells_entries(pool, b, told),
        b"range" => lists::tells_set_keys(pool, b, told),
        b"keys" => lists::tells_keys(pool, b, told),
        b"values" => lists::tells_values(pool, b, told),
        _ => false,
    }
}

// Whether a line's answer is what a call answers, by its name and the numbers that it is given.
pub fn tells(pool: &mut [u64], name: &[u8], numbers: &[u64], told: &[u8]) -> bool {
    let ours = match numbers {
        [] => given_none(pool, name),
        [a] if word_at(pool, KIND) == MAP => given_one(pool, name, *a),
        [key] => set_given_one(pool, name, *key),
        [a, b] => given_two(pool, name, *a, *b),
        [lower, from, upper, to] => {
            let bounds = Bounds {
                lower: Bound {
                    kind: *lower,
                    key: *from,
                },
                upper: Bound {
                    kind: *upper,
                    key: *to,
                },
            };
            return tells_list(pool, name, bounds, told);
        }
        _ => Ok(Ours::Wrong),
    };
    ours.unwrap_or(Ours::Wrong).is_told(told)
}

// Map and set: the calls of BTreeMap and BTreeSet on a lent pool. A map's own calls stand here; a set's are in `set`,
// lists in `list`, and what both kinds share in `pool`. Every call takes any words and any numbers: it tests the length
// and the head first, refuses in document 01's order, and a refusal has changed no word.
#![tactic(auto)]

ghost use Rattle.model.specs.Call.{Meets, ReadsPages};
ghost use Rattle.model.specs.MapCalls.{map_insert, map_get, map_contains, map_replace, map_remove};
ghost use Rattle.map.specs.Answers.{outcome_of, option_of, found_of, seen_of};

pub mod bound;
pub mod entry;
pub mod list;
pub mod pool;
pub mod refusal;
pub mod set;

use crate::refusal::{MAP, Refusal};
use page::Entry;

// What get answers: the value of a key that is there, and the pages read, which are all levels where it is absent.
#[derive(Clone, Copy, Debug, PartialEq, Eq)]
pub struct Got {
    pub value: Option<u64>,
    pub read: usize,
}

// What contains answers: whether the key is there, and the pages read.
#[derive(Clone, Copy, Debug, PartialEq, Eq)]
pub struct Seen {
    pub present: bool,
    pub read: usize,
}

// The key's entry, new or over the one that it had, whose value is answered. Key and value are two numbers, as in
// BTreeMap's `insert` and as C passes them; so they are in `replace`.
pub fn insert(pool: &mut [u64], key: u64, value: u64) -> Result<Option<u64>, Refusal>
    ensures { Meets (map_insert key value) pool.old pool.new (outcome_of option_of result) }
{
    refusal::changing(pool, MAP)?;
    match entry::add(pool, Entry { key, value })? {
        Some(spot) => Ok(Some(tree::write::write(pool, spot.page, spot.slot, value))),
        None => Ok(None),
    }
}

// The value of a key.
pub fn get(pool: &[u64], key: u64) -> Result<Got, Refusal>
    ensures { ReadsPages (map_get key) (λ f. f.read) pool.now pool.now (outcome_of found_of result) }
{
    entry::get(pool, MAP, key)
}

// Whether the key is there.
pub fn contains(pool: &[u64], key: u64) -> Result<Seen, Refusal>
    ensures { ReadsPages (map_contains key) (λ f. f.read) pool.now pool.now (outcome_of seen_of result) }
{
    entry::contains(pool, MAP, key)
}

// Another value for a key that is there; the value before.
pub fn replace(pool: &mut [u64], key: u64, value: u64) -> Result<Option<u64>, Refusal>
    ensures { Meets (map_replace key value) pool.old pool.new (outcome_of option_of result) }
{
    refusal::changing(pool, MAP)?;
    match entry::find(pool, key)? {
        Some(spot) => Ok(Some(tree::write::write(pool, spot.page, spot.slot, value))),
        None => Ok(None),
    }
}

// The key's entry goes; the value that it had.
pub fn remove(pool: &mut [u64], key: u64) -> Result<Option<u64>, Refusal>
    ensures { Meets (map_remove key) pool.old pool.new (outcome_of option_of result) }
{
    refusal::changing(pool, MAP)?;
    Ok(entry::strike(pool, key)?)
}

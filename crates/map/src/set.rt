// The set's calls: a set is a map whose values are 0. Its list is that of its keys.
// Each bound of the list is a kind and a key, as C passes them: any numbers are taken.
ghost use Rattle.std.specs.Prelude.{[], ◌∷◌};
ghost use Rattle.model.specs.Bound.{bound_of};
ghost use Rattle.model.specs.Refusal.{set_kind};
ghost use Rattle.model.specs.Call.{Meets, ReadsPages};
ghost use Rattle.model.specs.SetCalls.{set_insert, set_get, set_contains, set_remove};
ghost use Rattle.model.specs.ListCalls.{key_column, Lists, list_tests};
ghost use Rattle.map.specs.Answers.{outcome_of, itself, found_of, seen_of};

use crate::bound::Bound;
use crate::refusal::{Refusal, SET};
use crate::{Got, Seen, entry, list, refusal};
use page::Entry;

// Whether the key is new, and so put in.
pub fn insert(pool: &mut [u64], key: u64) -> Result<bool, Refusal>
    ensures { Meets (set_insert key) pool.old pool.new (outcome_of itself result) }
{
    refusal::changing(pool, SET)?;
    Ok(entry::add(pool, Entry { key, value: 0 })?.is_none())
}

// The set's own key, where it is there.
pub fn get(pool: &[u64], key: u64) -> Result<Got, Refusal>
    ensures { ReadsPages (set_get key) (λ f. f.read) pool.now pool.now (outcome_of found_of result) }
{
    let seen = contains(pool, key)?;
    Ok(Got {
        value: if seen.present { Some(key) } else { None },
        read: seen.read,
    })
}

// Whether the key is there.
pub fn contains(pool: &[u64], key: u64) -> Result<Seen, Refusal>
    ensures { ReadsPages (set_contains key) (λ f. f.read) pool.now pool.now (outcome_of seen_of result) }
{
    entry::contains(pool, SET, key)
}

// Whether the key was there; it goes.
pub fn remove(pool: &mut [u64], key: u64) -> Result<bool, Refusal>
    ensures { Meets (set_remove key) pool.old pool.new (outcome_of itself result) }
{
    refusal::changing(pool, SET)?;
    Ok(entry::strike(pool, key)?.is_some())
}

// The keys between two bounds, into a lent slice; how many were written.
pub fn list(pool: &[u64], lower: Bound, upper: Bound, keys: &mut [u64]) -> Result<usize, Refusal>
    ensures { Lists (list_tests set_kind lower.kind upper.kind pool.now) (bound_of lower.kind lower.key) (bound_of upper.kind upper.key) pool.now (key_column keys.old keys.new ∷ []) (outcome_of itself result) }
{
    list::keys_of(pool, SET, lower, upper, keys)
}

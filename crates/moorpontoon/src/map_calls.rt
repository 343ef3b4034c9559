// Exported, for a map: insert, get, contains, replace, remove and its lists. Names, arguments and words of `out` are
// those of include/moorpontoon.h.
ghost use Rattle.std.specs.Prelude.{[], ◌∷◌};
ghost use Rattle.model.specs.Refusal.{map_kind};
ghost use Rattle.model.specs.Call.{Meets, ReadsPages};
ghost use Rattle.model.specs.MapCalls.{map_insert, map_get, map_contains, map_replace, map_remove};
ghost use Rattle.model.specs.ListCalls.{key_column, value_column};
ghost use Rattle.moorpontoon.specs.Words.{perhaps, found, seen};
ghost use Rattle.moorpontoon.specs.Exported.{Called, ListsCalled};

use crate::give::{OUT, SHORT, give};
use map::bound::Bound;
use map::list;

// The key's entry, new or over the one that it had.
#[unsafe(no_mangle)]
pub extern "C" fn mp_map_insert(pool: &mut [u64], key: u64, value: u64, out: &mut [u64]) -> u64
    ensures { Called perhaps (Meets (map_insert key value)) pool.old pool.new out.old out.new result }
{
    if out.len() < OUT {
        return SHORT;
    }
    give(out, map::insert(pool, key, value))
}

// The value of a key.
#[unsafe(no_mangle)]
pub extern "C" fn mp_map_get(pool: &[u64], key: u64, out: &mut [u64]) -> u64
    ensures { Called found (ReadsPages (map_get key) (λ f. f.read)) pool.now pool.now out.old out.new result }
{
    if out.len() < OUT {
        return SHORT;
    }
    give(out, map::get(pool, key))
}

// Whether the key is there.
#[unsafe(no_mangle)]
pub extern "C" fn mp_map_contains(pool: &[u64], key: u64, out: &mut [u64]) -> u64
    ensures { Called seen (ReadsPages (map_contains key) (λ f. f.read)) pool.now pool.now out.old out.new result }
{
    if out.len() < OUT {
        return SHORT;
    }
    give(out, map::contains(pool, key))
}

// Another value for a key that is there.
#[unsafe(no_mangle)]
pub extern "C" fn mp_map_replace(pool: &mut [u64], key: u64, value: u64, out: &mut [u64]) -> u64
    ensures { Called perhaps (Meets (map_replace key value)) pool.old pool.new out.old out.new result }
{
    if out.len() < OUT {
        return SHORT;
    }
    give(out, map::replace(pool, key, value))
}

// The key's entry goes.
#[unsafe(no_mangle)]
pub extern "C" fn mp_map_remove(pool: &mut [u64], key: u64, out: &mut [u64]) -> u64
    ensures { Called perhaps (Meets (map_remove key)) pool.old pool.new out.old out.new result }
{
    if out.len() < OUT {
        return SHORT;
    }
    give(out, map::remove(pool, key))
}

// The entries between two bounds, in key order, as many as the shorter slice takes.
#[unsafe(no_mangle)]
pub extern "C" fn mp_map_list_entries(
    pool: &[u64],
    lower: u64,
    from: u64,
    upper: u64,
    to: u64,
    keys: &mut [u64],
    values: &mut [u64],
    out: &mut [u64],
) -> u64
    ensures { ListsCalled map_kind lower from upper to pool.now (key_column keys.old keys.new ∷ value_column values.old values.new ∷ []) out.old out.new result }
{
    if out.len() < OUT {
        return SHORT;
    }
    let lower = Bound {
        kind: lower,
        key: from,
    };
    let upper = Bound {
        kind: upper,
        key: to,
    };
    give(out, list::entries(pool, lower, upper, keys, values))
}

// Their keys.
#[unsafe(no_mangle)]
pub extern "C" fn mp_map_list_keys(
    pool: &[u64],
    lower: u64,
    from: u64,
    upper: u64,
    to: u64,
    keys: &mut [u64],
    out: &mut [u64],
) -> u64
    ensures { ListsCalled map_kind lower from upper to pool.now (key_column keys.old keys.new ∷ []) out.old out.new result }
{
    if out.len() < OUT {
        return SHORT;
    }
    let lower = Bound {
        kind: lower,
        key: from,
    };
    let upper = Bound {
        kind: upper,
        key: to,
    };
    give(out, list::keys(pool, lower, upper, keys))
}

// Their values.
#[unsafe(no_mangle)]
pub extern "C" fn mp_map_list_values(
    pool: &[u64],
    lower: u64,
    from: u64,
    upper: u64,
    to: u64,
    values: &mut [u64],
    out: &mut [u64],
) -> u64
    ensures { ListsCalled map_kind lower from upper to pool.now (value_column values.old values.new ∷ []) out.old out.new result }
{
    if out.len() < OUT {
        return SHORT;
    }
    let lower = Bound {
        kind: lower,
        key: from,
    };
    let upper = Bound {
        kind: upper,
        key: to,
    };
    give(out, list::values(pool, lower, upper, values))
}

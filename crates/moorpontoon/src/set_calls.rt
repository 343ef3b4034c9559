// Exported, for a set: insert, get, contains, remove and its list. Names, arguments and words of `out` are those of
// include/moorpontoon.h.
ghost use Rattle.std.specs.Prelude.{[], ◌∷◌};
ghost use Rattle.model.specs.Refusal.{set_kind};
ghost use Rattle.model.specs.Call.{Meets, ReadsPages};
ghost use Rattle.model.specs.SetCalls.{set_insert, set_get, set_contains, set_remove};
ghost use Rattle.model.specs.ListCalls.{key_column};
ghost use Rattle.moorpontoon.specs.Words.{whether, found, seen};
ghost use Rattle.moorpontoon.specs.Exported.{Called, ListsCalled};

use crate::give::{OUT, SHORT, give};
use map::bound::Bound;
use map::set;

// The key, if it is new.
#[unsafe(no_mangle)]
pub extern "C" fn mp_set_insert(pool: &mut [u64], key: u64, out: &mut [u64]) -> u64
    ensures { Called whether (Meets (set_insert key)) pool.old pool.new out.old out.new result }
{
    if out.len() < OUT {
        return SHORT;
    }
    give(out, set::insert(pool, key))
}

// The set's own key.
#[unsafe(no_mangle)]
pub extern "C" fn mp_set_get(pool: &[u64], key: u64, out: &mut [u64]) -> u64
    ensures { Called found (ReadsPages (set_get key) (λ f. f.read)) pool.now pool.now out.old out.new result }
{
    if out.len() < OUT {
        return SHORT;
    }
    give(out, set::get(pool, key))
}

// Whether the key is there.
#[unsafe(no_mangle)]
pub extern "C" fn mp_set_contains(pool: &[u64], key: u64, out: &mut [u64]) -> u64
    ensures { Called seen (ReadsPages (set_contains key) (λ f. f.read)) pool.now pool.now out.old out.new result }
{
    if out.len() < OUT {
        return SHORT;
    }
    give(out, set::contains(pool, key))
}

// The key goes.
#[unsafe(no_mangle)]
pub extern "C" fn mp_set_remove(pool: &mut [u64], key: u64, out: &mut [u64]) -> u64
    ensures { Called whether (Meets (set_remove key)) pool.old pool.new out.old out.new result }
{
    if out.len() < OUT {
        return SHORT;
    }
    give(out, set::remove(pool, key))
}

// The keys between two bounds, in order, as many as the slice takes.
#[unsafe(no_mangle)]
pub extern "C" fn mp_set_list(
    pool: &[u64],
    lower: u64,
    from: u64,
    upper: u64,
    to: u64,
    keys: &mut [u64],
    out: &mut [u64],
) -> u64
    ensures { ListsCalled set_kind lower from upper to pool.now (key_column keys.old keys.new ∷ []) out.old out.new result }
{
    if out.len() < OUT {
        return SHORT;
    }
    let lower = Bound {
        kind: lower,
        key: from,
    };
    let upper = Bound {
        kind: upper,
        key: to,
    };
    give(out, set::list(pool, lower, upper, keys))
}

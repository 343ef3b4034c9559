// Exported, for a pool of either kind: make, clear, count, is-empty, copy, check. Names, arguments and words of `out`
// are those of include/moorpontoon.h.
ghost use Rattle.model.specs.PoolCalls.{Makes, Clears, Counts, TellsEmpty, Copies};
ghost use Rattle.moorpontoon.specs.Words.{nothing, amount, whether};
ghost use Rattle.moorpontoon.specs.Exported.{Called, ChecksOnly};

use crate::give::{OUT, SHORT, give};
use map::pool;

// A new pool of a kind, in any words of a length that is allowed.
#[unsafe(no_mangle)]
pub extern "C" fn mp_make(pool: &mut [u64], kind: u64, out: &mut [u64]) -> u64
    ensures { Called nothing (Makes kind) pool.old pool.new out.old out.new result }
{
    if out.len() < OUT {
        return SHORT;
    }
    give(out, pool::make(pool, kind))
}

// The same pool with no entry.
#[unsafe(no_mangle)]
pub extern "C" fn mp_clear(pool: &mut [u64], out: &mut [u64]) -> u64
    ensures { Called nothing Clears pool.old pool.new out.old out.new result }
{
    if out.len() < OUT {
        return SHORT;
    }
    give(out, pool::clear(pool))
}

// The entries.
#[unsafe(no_mangle)]
pub extern "C" fn mp_count(pool: &[u64], out: &mut [u64]) -> u64
    ensures { Called amount Counts pool.now pool.now out.old out.new result }
{
    if out.len() < OUT {
        return SHORT;
    }
    give(out, pool::count(pool))
}

// Whether there is none.
#[unsafe(no_mangle)]
pub extern "C" fn mp_is_empty(pool: &[u64], out: &mut [u64]) -> u64
    ensures { Called whether TellsEmpty pool.now pool.now out.old out.new result }
{
    if out.len() < OUT {
        return SHORT;
    }
    give(out, pool::is_empty(pool))
}

// The pool into other words, with the cursor closed.
#[unsafe(no_mangle)]
pub extern "C" fn mp_copy(pool: &[u64], destination: &mut [u64], out: &mut [u64]) -> u64
    ensures { Called nothing (Copies pool.now) destination.old destination.new out.old out.new result }
{
    if out.len() < OUT {
        return SHORT;
    }
    give(out, pool::copy(pool, destination))
}

// Whether the words are a sound pool.
#[unsafe(no_mangle)]
pub extern "C" fn mp_check(pool: &[u64], out: &mut [u64]) -> u64
    ensures { Called whether ChecksOnly pool.now pool.now out.old out.new result }
{
    if out.len() < OUT {
        return SHORT;
    }
    give(out, Ok(pool::check(pool)))
}

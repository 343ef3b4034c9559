// Exported, for the cursor on a map: opening, next, prev, the peeks, the writes, insert after, remove next, close.
// Names, arguments and words of `out` are those of include/moorpontoon.h.
ghost use Rattle.model.specs.Call.{Meets, ReadsPages};
ghost use Rattle.model.specs.CursorCalls.{cursor_open_lower, cursor_open_upper, cursor_next, cursor_prev, cursor_peek_next, cursor_peek_prev, cursor_write_next, cursor_write_prev, cursor_insert_after, cursor_remove_next, Closes};
ghost use Rattle.moorpontoon.specs.Words.{nothing, amount, perhaps, stepped};
ghost use Rattle.moorpontoon.specs.Exported.{Called};

use crate::give::{OUT, SHORT, give};
use cursor::{edit, opening};
use map::bound::Bound;

// The gap before the first entry that a lower bound lets in.
#[unsafe(no_mangle)]
pub extern "C" fn mp_cursor_open_lower(
    pool: &mut [u64],
    kind: u64,
    key: u64,
    out: &mut [u64],
) -> u64
    ensures { Called amount (ReadsPages (cursor_open_lower kind key) (λ n. n)) pool.old pool.new out.old out.new result }
{
    if out.len() < OUT {
        return SHORT;
    }
    give(out, opening::lower(pool, Bound { kind, key }))
}

// The gap after the last entry that an upper bound lets in.
#[unsafe(no_mangle)]
pub extern "C" fn mp_cursor_open_upper(
    pool: &mut [u64],
    kind: u64,
    key: u64,
    out: &mut [u64],
) -> u64
    ensures { Called amount (ReadsPages (cursor_open_upper kind key) (λ n. n)) pool.old pool.new out.old out.new result }
{
    if out.len() < OUT {
        return SHORT;
    }
    give(out, opening::upper(pool, Bound { kind, key }))
}

// The entry after the gap, and the gap goes over it.
#[unsafe(no_mangle)]
pub extern "C" fn mp_cursor_next(pool: &mut [u64], out: &mut [u64]) -> u64
    ensures { Called stepped (Meets cursor_next) pool.old pool.new out.old out.new result }
{
    if out.len() < OUT {
        return SHORT;
    }
    give(out, cursor::next(pool))
}

// The entry before the gap, and the gap goes over it.
#[unsafe(no_mangle)]
pub extern "C" fn mp_cursor_prev(pool: &mut [u64], out: &mut [u64]) -> u64
    ensures { Called stepped (Meets cursor_prev) pool.old pool.new out.old out.new result }
{
    if out.len() < OUT {
        return SHORT;
    }
    give(out, cursor::prev(pool))
}

// The entry after the gap.
#[unsafe(no_mangle)]
pub extern "C" fn mp_cursor_peek_next(pool: &[u64], out: &mut [u64]) -> u64
    ensures { Called stepped (Meets cursor_peek_next) pool.now pool.now out.old out.new result }
{
    if out.len() < OUT {
        return SHORT;
    }
    give(out, cursor::peek_next(pool))
}

// The entry before the gap.
#[unsafe(no_mangle)]
pub extern "C" fn mp_cursor_peek_prev(pool: &[u64], out: &mut [u64]) -> u64
    ensures { Called stepped (Meets cursor_peek_prev) pool.now pool.now out.old out.new result }
{
    if out.len() < OUT {
        return SHORT;
    }
    give(out, cursor::peek_prev(pool))
}

// Another value for the entry after the gap.
#[unsafe(no_mangle)]
pub extern "C" fn mp_cursor_write_next(pool: &mut [u64], value: u64, out: &mut [u64]) -> u64
    ensures { Called perhaps (Meets (cursor_write_next value)) pool.old pool.new out.old out.new result }
{
    if out.len() < OUT {
        return SHORT;
    }
    give(out, cursor::write_next(pool, value))
}

// Another value for the entry before the gap.
#[unsafe(no_mangle)]
pub extern "C" fn mp_cursor_write_prev(pool: &mut [u64], value: u64, out: &mut [u64]) -> u64
    ensures { Called perhaps (Meets (cursor_write_prev value)) pool.old pool.new out.old out.new result }
{
    if out.len() < OUT {
        return SHORT;
    }
    give(out, cursor::write_prev(pool, value))
}

// An entry after the gap, which stays before it.
#[unsafe(no_mangle)]
pub extern "C" fn mp_cursor_insert_after(
    pool: &mut [u64],
    key: u64,
    value: u64,
    out: &mut [u64],
) -> u64
    ensures { Called nothing (Meets (cursor_insert_after key value)) pool.old pool.new out.old out.new result }
{
    if out.len() < OUT {
        return SHORT;
    }
    give(out, edit::insert_after(pool, key, value))
}

// The entry after the gap goes.
#[unsafe(no_mangle)]
pub extern "C" fn mp_cursor_remove_next(pool: &mut [u64], out: &mut [u64]) -> u64
    ensures { Called stepped (Meets cursor_remove_next) pool.old pool.new out.old out.new result }
{
    if out.len() < OUT {
        return SHORT;
    }
    give(out, edit::remove_next(pool))
}

// The cursor is put away; the map takes changes again.
#[unsafe(no_mangle)]
pub extern "C" fn mp_cursor_close(pool: &mut [u64], out: &mut [u64]) -> u64
    ensures { Called nothing Closes pool.old pool.new out.old out.new result }
{
    if out.len() < OUT {
        return SHORT;
    }
    give(out, cursor::close(pool))
}

// The gap, in head words 5 to 7: word 5 is 1 while the cursor is open, word 6 is 0 for a gap at the start and 1 for a
// gap just after an entry, whose key is word 7. Here are the tests that a cursor call passes before it looks at it,
// where it is, and where it is laid. What clauses ask of the pool no type says: see the crate lend, src/lib.rt.
ghost use Rattle.std.specs.Prelude.{◌≡◌, true};
ghost use Rattle.model.specs.Head.{headed};
ghost use Rattle.model.specs.Refusal.{refusal};
ghost use Rattle.model.specs.CursorCalls.{cursor_tests};
ghost use Rattle.tree.specs.Steps.{Within};
ghost use Rattle.map.specs.Answers.{early_number};
ghost use Rattle.cursor.specs.Gap.{aim_of, gap_words, laid_words, named_key, rest_words};

use map::refusal;
use map::refusal::{MAP, Refusal};
use model::{AFTER, KEY, OPEN};
use tree::search::Aim;
use tree::steps::Spot;

// Past the first tests of a cursor call other than open.
pub fn ready(pool: &[u64]) -> Result<(), Refusal>
    ensures { early_number result ≡ refusal (cursor_tests pool.now) }
{
    refusal::reading(pool, MAP)?;
    if pool[OPEN] == 0 {
        return Err(Refusal::Closed);
    }
    Ok(())
}

// The key of the entry that the gap names, which is before it; none where the gap is at the start.
pub fn named(pool: &[u64]) -> Option<u64>
    requires { headed pool.now ≡ true }
    ensures { result ≡ named_key pool.now }
{
    if pool[AFTER] == 0 {
        return None;
    }
    Some(pool[KEY])
}

// Where a search finds it.
pub fn aim(pool: &[u64]) -> Aim
    requires { headed pool.now ≡ true }
    ensures { result ≡ aim_of pool.now }
{
    match named(pool) {
        Some(key) => Aim::After(key),
        None => Aim::Start,
    }
}

// The gap's words: whether the cursor is open, whether the gap is after an entry, and that entry's key.
pub fn lay(pool: &mut [u64], opened: u64, after: u64, key: u64)
    requires { headed pool.old ≡ true }
    ensures { pool.new ≡ gap_words opened after key pool.old }
{
    pool[OPEN] = opened;
    pool[AFTER] = after;
    pool[KEY] = key;
}

// No cursor is open.
pub fn clear(pool: &mut [u64])
    requires { headed pool.old ≡ true }
    ensures { pool.new ≡ gap_words 0 0 0 pool.old }
{
    lay(pool, 0, 0, 0);
}

// An open cursor's gap just behind the entry of a key, or at the start.
pub fn lay_behind(pool: &mut [u64], behind: Option<u64>)
    requires { headed pool.old ≡ true }
    ensures { pool.new ≡ laid_words behind pool.old }
{
    match behind {
        Some(key) => lay(pool, 1, 1, key),
        None => lay(pool, 1, 0, 0),
    }
}

// An open cursor's gap just behind the entry at a spot, or at the start.
pub fn rest(pool: &mut [u64], behind: Option<Spot>)
    requires pool_value { headed pool.old ≡ true }
    requires within { Within pool.old behind }
    ensures { pool.new ≡ rest_words behind pool.old }
{
    match behind {
        Some(spot) => {
            let e = lend::pages::entry_at(pool, spot.page, spot.slot);
            lay_behind(pool, Some(e.key));
        }
        None => lay_behind(pool, None),
    }
}

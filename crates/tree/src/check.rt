// Check: whether a pool is sound, on any words of any length. One walk in key order, by recursion over the remaining
// height, which falls; it stops at the first fault, and meets at most P pages. Keys that rise over the whole walk meet
// no page twice, so no list of pages is kept: each page met is taken, and they are as many as the map's ones.
// What clauses ask of the pool no type says: the reason stands in the crate lend, src/lib.rt.
ghost use Rattle.std.specs.Prelude.{◌≡◌, true, ◌*◌, ◌≤◌, length, Ok};
ghost use Rattle.model.specs.Basics.{every};
ghost use Rattle.model.specs.Layout.{most_pages, first_word, pages_in, today};
ghost use Rattle.model.specs.Head.{headed};
ghost use Rattle.model.specs.PoolCalls.{Checks};
ghost use Rattle.lend.specs.Pages.{most, Inside};
ghost use Rattle.tree.specs.Check.{stand_tests, key_rises, value_fits, over_entry_at, Walks, CursorIs};

use crate::search;
use lend::{bits, head, pages};
use model::{AFTER, COUNT, KEY, KIND, LEAST, LEVELS, MOST, OPEN, ROOT};
use page::Unsound;

// What a walk has met so far: pages, entries and the last key.
#[derive(Clone, Copy, Debug, PartialEq, Eq)]
pub struct Tally {
    pub pages: usize,
    pub entries: usize,
    pub last: u64,
}

// Whether page `p`, met after `pages` others, can be one of the pool's: there are more pages than those, it is taken,
// has height `h` and holds `low` to nine entries.
fn stands(pool: &[u64], p: usize, h: usize, low: usize, pages: usize) -> bool
    requires { (first_word today 0 ≤ length pool.now) × Inside p pool.now }
    ensures { result ≡ every (stand_tests pool.now p h low pages) }
{
    let n = pages::count(pool, p);
    pages < bits::pages_in(pool)
        && bits::is_taken(pool, p)
        && pages::height(pool, p) == h as u64
        && low <= n
        && n <= MOST
}

// Whether a key is above the last, where `entries` were met before.
fn rises(entries: usize, last: u64, key: u64) -> bool
    ensures { result ≡ key_rises entries last key }
{
    entries == 0 || last < key
}

// Whether a value fits the kind of the pool: in a set it is 0.
fn fits_kind(pool: &[u64], value: u64) -> bool
    requires { first_word today 0 ≤ length pool.now }
    ensures { result ≡ value_fits pool.now value }
{
    pool[KIND] != 1 || value == 0
}

// The walk over entry `i` of page `p`, which holds `n`; where there is none, nothing is met.
fn meet(pool: &[u64], p: usize, i: usize, n: usize, tally: Tally) -> Result<Tally, Unsound>
    requires { (first_word today 0 ≤ length pool.now) × Inside p pool.now × (n ≤ most) × (tally.entries ≤ most * most_pages today) }
    ensures { result ≡ over_entry_at pool.now p i n (Ok tally) }
{
    if n <= i {
        return Ok(tally);
    }
    let e = pages::entry_at(pool, p, i);
    if !rises(tally.entries, tally.last, e.key) || !fits_kind(pool, e.value) {
        return Err(Unsound);
    }
    Ok(Tally {
        entries: tally.entries + 1,
        last: e.key,
        ..tally
    })
}

// The walk over page `p`, of height `h`, and all below it.
fn walk(pool: &[u64], p: usize, h: usize, low: usize, tally: Tally) -> Result<Tally, Unsound>
    requires { (first_word today 0 ≤ length pool.now) × Inside p pool.now × (tally.pages ≤ pages_in today (length pool.now)) × (pages_in today (length pool.now) ≤ most_pages today) × (tally.entries ≤ most * tally.pages) }
    ensures { Walks pool.now p h low tally result }
{
    if !stands(pool, p, h, low, tally.pages) {
        return Err(Unsound);
    }
    let n = pages::count(pool, p);
    let mut met = Tally {
        pages: tally.pages + 1,
        ..tally
    };
    for i in 0..n + 1 {
        if 0 < h {
            let c = search::child(pool, p, i)?;
            // A copy is handed down, so that `met` itself can stay in registers: with `met` check takes 5% longer.
            met = walk(pool, c, h - 1, LEAST, Tally { ..met })?;
        }
        met = meet(pool, p, i, n, met)?;
    }
    Ok(met)
}

// Whether the cursor's words are right: a gap after an entry names a key present.
fn cursor(pool: &[u64]) -> bool
    requires { headed pool.now ≡ true }
    ensures { CursorIs pool.now result }
{
    if pool[AFTER] == 0 {
        return pool[KEY] == 0;
    }
    if pool[OPEN] == 0 {
        return false;
    }
    let levels = pool[LEVELS] as usize;
    if levels == 0 {
        return false;
    }
    let found = search::get_below(pool, pool[ROOT] as usize - 1, levels - 1, pool[KEY], 0);
    matches!(found, Ok(Some(_)))
}

// Yes exactly for a sound pool.
pub fn check(pool: &[u64]) -> bool
    ensures { Checks pool.now result }
{
    if !head::fits(pool) {
        return false;
    }
    let levels = pool[LEVELS] as usize;
    if levels == 0 {
        return bits::taken(pool) == 0 && cursor(pool);
    }
    let nothing = Tally {
        pages: 0,
        entries: 0,
        last: 0,
    };
    let Ok(all) = walk(pool, pool[ROOT] as usize - 1, levels - 1, 1, nothing) else {
        return false;
    };
    all.pages == bits::taken(pool) && all.entries as u64 == pool[COUNT] && cursor(pool)
}

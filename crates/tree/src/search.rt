// Search, by key to its value and the pages read, and by key or bound to the path of its gap. Each page is tested as it
// is read: its number lies inside the pool, its count is 1 to 9, its height is the one that its level asks. Anything
// else is `Unsound`, and nothing has been stored.
// What clauses ask of the pool no type says: the reason stands in the crate lend, src/lib.rt.
ghost use Rattle.std.specs.Prelude.{◌≡◌, true, false, suc, ◌+◌, ◌≤◌, ◌<◌, length};
ghost use Rattle.model.specs.Layout.{today, most_levels, first_word};
ghost use Rattle.model.specs.Head.{levels_word, headed};
ghost use Rattle.page.specs.Runs.{up_to};
ghost use Rattle.lend.specs.Pages.{Inside};
ghost use Rattle.tree.specs.Sits.{pages_of, slots_of};
ghost use Rattle.tree.specs.Search.{below_of, place_at, aimed, slot_by, GetsBelow, ReadFew, Gets, SeeksBelow, Seeks};

use crate::steps::Spot;
use lend::{bits, pages};
use model::{LEVELS, MOST, ROOT};
use page::{Place, Unsound};

// What a search by key finds: the value, and the number of pages read.
#[derive(Clone, Copy, Debug, PartialEq, Eq)]
pub struct Found {
    pub value: u64,
    pub read: usize,
}

// What is looked for: the gap before a key or after it, the first gap or the last.
#[derive(Clone, Copy, Debug, PartialEq, Eq)]
pub enum Aim {
    Before(u64),
    After(u64),
    Start,
    End,
}

// The page of the child at a place, where it lies inside the pool.
#[tactic(auto, unfolding(crate::specs::Search::below_of))]
pub fn child(pool: &[u64], p: usize, at: usize) -> Result<usize, Unsound>
    requires { (first_word today 0 ≤ length pool.now) × Inside p pool.now }
    ensures { result ≡ below_of pool.now p at }
{
    if MOST < at {
        return Err(Unsound);
    }
    let c = pages::child_at(pool, p, at) as usize;
    if c < bits::pages_in(pool) {
        return Ok(c);
    }
    Err(Unsound)
}

// Where a key belongs in page `p`, whose height is to be `h`.
#[tactic(auto, unfolding(crate::specs::Search::place_at))]
fn look(pool: &[u64], p: usize, h: usize, key: u64) -> Result<Place, Unsound>
    requires { Inside p pool.now }
    ensures { result ≡ place_at pool.now p h key }
{
    if pages::height(pool, p) != h as u64 {
        return Err(Unsound);
    }
    pages::find(pool, p, key)
}

// The search from page `p`, of height `h`, down, which takes all levels where the key is absent; `above` pages were
// read before.
pub fn get_below(
    pool: &[u64],
    p: usize,
    h: usize,
    key: u64,
    above: usize,
) -> Result<Option<Found>, Unsound>
    requires { (first_word today 0 ≤ length pool.now) × Inside p pool.now × (above + h < most_levels today) }
    ensures { GetsBelow pool.now p h key above result × ReadFew (suc (above + h)) result }
{
    let mut at = p;
    for left in (0..h + 1).rev() {
        match look(pool, at, left, key)? {
            Place::Here(i) => {
                let value = pages::entry_at(pool, at, i).value;
                let read = above + (h - left) + 1;
                return Ok(Some(Found { value, read }));
            }
            Place::Gap(i) => {
                if left == 0 {
                    break;
                }
                at = child(pool, at, i)?;
            }
        }
    }
    Ok(None)
}

// The value of a key.
pub fn get(pool: &[u64], key: u64) -> Result<Option<Found>, Unsound>
    requires { headed pool.now ≡ true }
    ensures { Gets pool.now key result × ReadFew (levels_word pool.now) result }
{
    let levels = pool[LEVELS] as usize;
    if levels == 0 {
        return Ok(None);
    }
    let root = pool[ROOT] as usize - 1;
    get_below(pool, root, levels - 1, key, 0)
}

// The slot of the gap before `key` in page `p`, whose height is to be `h`.
#[tactic(auto, unfolding(crate::specs::Search::slot_by))]
fn before_in(pool: &[u64], p: usize, h: usize, key: u64) -> Result<usize, Unsound>
    requires { Inside p pool.now }
    ensures { result ≡ slot_by pool.now p h (up_to key false) }
{
    if pages::height(pool, p) != h as u64 {
        return Err(Unsound);
    }
    pages::gap_before(pool, p, key)
}

// The slot of the gap after `key` in page `p`, whose height is to be `h`. Beside `before_in`: with the height tested once,
// before the aim is looked at, insert and remove take 5% more instructions.
#[tactic(auto, unfolding(crate::specs::Search::slot_by))]
fn after_in(pool: &[u64], p: usize, h: usize, key: u64) -> Result<usize, Unsound>
    requires { Inside p pool.now }
    ensures { result ≡ slot_by pool.now p h (up_to key true) }
{
    if pages::height(pool, p) != h as u64 {
        return Err(Unsound);
    }
    pages::gap_after(pool, p, key)
}

// The slot of the aim's gap in page `p`, whose height is to be `h`.
fn slot_in(pool: &[u64], p: usize, h: usize, aim: Aim) -> Result<usize, Unsound>
    requires { Inside p pool.now }
    ensures { result ≡ slot_by pool.now p h (aimed aim) }
{
    match aim {
        Aim::Before(key) => before_in(pool, p, h, key),
        Aim::After(key) => after_in(pool, p, h, key),
        Aim::Start => {
            last_slot(pool, p, h)?;
            Ok(0)
        }
        Aim::End => last_slot(pool, p, h),
    }
}

// The last slot of page `p`, whose height is to be `h`.
#[tactic(auto, unfolding(crate::specs::Search::slot_by, page::specs::Page::gap_in))]
fn last_slot(pool: &[u64], p: usize, h: usize) -> Result<usize, Unsound>
    requires { Inside p pool.now }
    ensures { result ≡ slot_by pool.now p h (λ x. true) }
{
    if pages::height(pool, p) != h as u64 {
        return Err(Unsound);
    }
    let n = pages::count(pool, p);
    if n == 0 || MOST < n {
        return Err(Unsound);
    }
    Ok(n)
}

// The path of the aim's gap from page `p` down. It is recorded in a lent slice, a spot a level.
pub fn seek_below(pool: &[u64], p: usize, aim: Aim, path: &mut [Spot]) -> Result<(), Unsound>
    requires { (first_word today 0 ≤ length pool.now) × Inside p pool.now × (1 ≤ length path.old) }
    ensures { SeeksBelow pool.now p aim (pages_of path.old) (slots_of path.old) (pages_of path.new) (slots_of path.new) result }
{
    let last = path.len() - 1;
    let mut at = p;
    let mut i: usize = 0;
    // One test a level: a `for` over the levels was measured, and seeks took 3 % longer.
    loop {
        let slot = slot_in(pool, at, last - i, aim)?;
        path[i] = Spot { page: at, slot };
        if i == last {
            return Ok(());
        }
        at = child(pool, at, slot)?;
        i += 1;
    }
}

// The path of the aim's gap, root first.
pub fn seek(pool: &[u64], aim: Aim, path: &mut [Spot]) -> Result<(), Unsound>
    requires pool_value { headed pool.now ≡ true }
    requires path_len { length path.old ≡ levels_word pool.now }
    ensures { Seeks pool.now aim (pages_of path.old) (slots_of path.old) (pages_of path.new) (slots_of path.new) result }
{
    if path.is_empty() {
        return Ok(());
    }
    let root = pool[ROOT] as usize - 1;
    seek_below(pool, root, aim, path)
}

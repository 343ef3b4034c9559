// Insertion along a path, at its gap. The pages it needs are counted first, from the leaf upward, and free pages only
// where one is needed. Then the new entry goes into the leaf, and what a page hands up goes into the page above it.
// What clauses ask of the pool no type says: the reason stands in the crate lend, src/lib.rt.
ghost use Rattle.std.specs.Prelude.{◌≡◌, true, ◌≤◌, length, get_or};
ghost use Rattle.model.specs.Basics.{All};
ghost use Rattle.model.specs.Layout.{today, most_levels};
ghost use Rattle.model.specs.Head.{levels_word, headed};
ghost use Rattle.lend.specs.Pages.{most, Inside};
ghost use Rattle.lend.specs.Touches.{Sized};
ghost use Rattle.tree.specs.Sits.{pages_of, slots_of, PathIn};
ghost use Rattle.page.specs.Page.{plain};
ghost use Rattle.tree.specs.Insert.{run_on, Needs, Puts, InsertsBelow, NewRoots, Inserts};

use crate::steps::Spot;
use lend::{bits, pages};
use model::{COUNT, LEVELS, MOST, ROOT};
use page::Entry;

// What a page hands up: an entry, and the page behind it.
#[derive(Clone, Copy, Debug, PartialEq, Eq)]
pub struct Up {
    pub entry: Entry,
    pub child: u64,
}

// Why an insertion is refused: it needs more pages than are free. No word has changed.
#[derive(Clone, Copy, Debug, PartialEq, Eq)]
pub struct Full;

// The number of full pages in an unbroken run from the leaf upward.
fn run(pool: &[u64], path: &[Spot]) -> usize
    requires { All (λ p. Inside p pool.now) (pages_of path.now) }
    ensures { result ≡ run_on pool.now (pages_of path.now) }
{
    let mut full = 0;
    for spot in path.iter().rev() {
        if pages::count(pool, spot.page) < MOST {
            break;
        }
        full += 1;
    }
    full
}

// The pages that an insert needs: 1 more if that run includes the root; so 1 for an empty tree.
fn needed(pool: &[u64], path: &[Spot]) -> usize
    requires { All (λ p. Inside p pool.now) (pages_of path.now) }
    ensures { Needs pool.now (pages_of path.now) result }
{
    let k = run(pool, path);
    if k == path.len() { k + 1 } else { k }
}

// An entry, and the child behind it, put into page `p`. A full page keeps the first five, and the lowest free page gets
// the last four.
fn put(pool: &mut [u64], p: usize, slot: usize, up: Up) -> Option<Up>
    requires { Sized pool.old × Inside p pool.old × (slot ≤ most) }
    ensures { Puts p slot (plain up.entry) up.child pool.old pool.new result }
{
    if pages::count(pool, p) < MOST {
        let _ = pages::insert(pool, p, slot, up.entry, slot + 1, up.child);
        return None;
    }
    let q = bits::take_lowest(pool)?;
    let Ok(entry) = pages::split(pool, p, q, slot, up.entry, up.child) else {
        return None;
    };
    Some(Up {
        entry,
        child: q as u64,
    })
}

// From the leaf upward: what a page hands up goes into the page above it.
fn insert_along(pool: &mut [u64], path: &[Spot], entry: Entry) -> Option<Up>
    requires sized { Sized pool.old }
    requires path_in { PathIn pool.old (pages_of path.now) (slots_of path.now) }
    ensures { InsertsBelow pool.old (pages_of path.now) (slots_of path.now) (plain entry) pool.new result }
{
    let mut up = Up { entry, child: 0 };
    for spot in path.iter().rev() {
        up = put(pool, spot.page, spot.slot, up)?;
    }
    Some(up)
}

// The root's page, where there is one.
fn root_of(path: &[Spot]) -> u64
    ensures { result ≡ get_or (pages_of path.now) 0 0 }
{
    path.first().map_or(0, |spot| spot.page as u64)
}

// The lowest free page becomes the root, one level up.
fn new_root(pool: &mut [u64], levels: usize, entry: Entry, left: u64, right: u64)
    requires { Sized pool.old × (levels ≤ most_levels today) }
    ensures { NewRoots levels (plain entry) left right pool.old pool.new }
{
    let Some(q) = bits::take_lowest(pool) else {
        return;
    };
    pages::single(pool, q, levels as u64, entry, left, right);
    pool[ROOT] = q as u64 + 1;
    pool[LEVELS] = levels as u64 + 1;
}

// An entry at the path's gap. Where it is refused no word has changed.
pub fn insert(pool: &mut [u64], path: &[Spot], entry: Entry) -> Result<(), Full>
    requires pool_value { headed pool.old ≡ true }
    requires path_len { length path.now ≡ levels_word pool.old }
    requires path_in { PathIn pool.old (pages_of path.now) (slots_of path.now) }
    ensures { Inserts pool.old (pages_of path.now) (slots_of path.now) (plain entry) pool.new result }
{
    let k = needed(pool, path);
    if 0 < k && !bits::has_free(pool, k) {
        return Err(Full);
    }
    if let Some(up) = insert_along(pool, path, entry) {
        new_root(pool, path.len(), up.entry, root_of(path), up.child);
    }
    pool[COUNT] += 1;
    Ok(())
}

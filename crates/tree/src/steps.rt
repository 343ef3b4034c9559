// Steps along a path: where the entry after the path's gap stands, and the one before it; and the gap moved over one of
// them, with the entry as the answer. A step reads the pages that the new path has and the old one had not: a whole
// list costs one descent and about two links a page.
// What clauses ask of the pool no type says: the reason stands in the crate lend, src/lib.rt.
ghost use Rattle.std.specs.Prelude.{suc, ◌≤◌, length};
ghost use Rattle.model.specs.Layout.{today, first_word};
ghost use Rattle.lend.specs.Pages.{Inside};
ghost use Rattle.tree.specs.Sits.{PathIn, pages_of, slots_of};
ghost use Rattle.tree.specs.Steps.{SpotAfter, SpotBefore, Turns, Overs, Forth, Back};

use crate::search;
use crate::search::Aim;
use lend::pages;
use model::MOST;
use page::{Entry, Unsound};

// Where an entry stands, or a gap: a page and a slot in it. A path is one for each level, root first.
#[derive(Clone, Copy, Debug, Default, PartialEq, Eq)]
pub struct Spot {
    pub page: usize,
    pub slot: usize,
}

// Where the entry after the path's gap stands: the deepest page of the path with an entry at its slot has it.
pub fn spot_after(pool: &[u64], path: &[Spot]) -> Option<Spot>
    requires { PathIn pool.now (pages_of path.now) (slots_of path.now) }
    ensures { SpotAfter pool.now (pages_of path.now) (slots_of path.now) result }
{
    for spot in path.iter().rev() {
        if page::holds(pages::page_at(pool, spot.page), MOST, spot.slot, 0) {
            return Some(*spot);
        }
    }
    None
}

// Where the entry before the path's gap stands: the deepest page of the path with an entry before its slot has it.
pub fn spot_before(pool: &[u64], path: &[Spot]) -> Option<Spot>
    requires { PathIn pool.now (pages_of path.now) (slots_of path.now) }
    ensures { SpotBefore pool.now (pages_of path.now) (slots_of path.now) result }
{
    for spot in path.iter().rev() {
        let Spot { page, slot } = *spot;
        if 0 < slot && page::holds(pages::page_at(pool, page), MOST, slot - 1, 0) {
            return Some(Spot {
                page,
                slot: slot - 1,
            });
        }
    }
    None
}

// The rest of the path goes down from child `at` of page `p`, to its start or its end.
fn turn(pool: &[u64], p: usize, at: usize, aim: Aim, path: &mut [Spot]) -> Result<(), Unsound>
    requires { (first_word today 0 ≤ length pool.now) × Inside p pool.now }
    ensures { Turns pool.now p at aim (pages_of path.old) (slots_of path.old) (pages_of path.new) (slots_of path.new) result }
{
    if path.is_empty() {
        return Ok(());
    }
    let c = search::child(pool, p, at)?;
    search::seek_below(pool, c, aim, path)
}

// Over entry `s` of the path's first page, to child `slot`.
fn over(
    pool: &[u64],
    s: usize,
    slot: usize,
    aim: Aim,
    path: &mut [Spot],
) -> Result<Option<Entry>, Unsound>
    requires today_in_bounds { (first_word today 0 ≤ length pool.now) × (1 ≤ length path.old) × (slot ≤ suc s) }
    requires path_in { PathIn pool.now (pages_of path.old) (slots_of path.old) }
    ensures { Overs pool.now s slot aim (pages_of path.old) (slots_of path.old) (pages_of path.new) (slots_of path.new) result }
{
    let p = path[0].page;
    if !page::holds(pages::page_at(pool, p), MOST, s, 0) {
        return Ok(None);
    }
    let e = pages::entry_at(pool, p, s);
    path[0].slot = slot;
    turn(pool, p, slot, aim, &mut path[1..])?;
    Ok(Some(e))
}

// The entry after the path's gap, and the path of the gap after it. From the leaf upward: the first page with an entry
// at its slot has it. By index, since the path from there on is lent to be changed.
pub fn next(pool: &[u64], path: &mut [Spot]) -> Result<Option<Entry>, Unsound>
    requires today_in_bounds { first_word today 0 ≤ length pool.now }
    requires path_in { PathIn pool.now (pages_of path.old) (slots_of path.old) }
    ensures { Forth pool.now (pages_of path.old) (slots_of path.old) (pages_of path.new) (slots_of path.new) result }
{
    for i in (0..path.len()).rev() {
        let s = path[i].slot;
        if let Some(e) = over(pool, s, s + 1, Aim::Start, &mut path[i..])? {
            return Ok(Some(e));
        }
    }
    Ok(None)
}

// The entry before the path's gap, and the path of the gap before it. From the leaf upward: the first page with an
// entry before its slot has it.
pub fn prev(pool: &[u64], path: &mut [Spot]) -> Result<Option<Entry>, Unsound>
    requires today_in_bounds { first_word today 0 ≤ length pool.now }
    requires path_in { PathIn pool.now (pages_of path.old) (slots_of path.old) }
    ensures { Back pool.now (pages_of path.old) (slots_of path.old) (pages_of path.new) (slots_of path.new) result }
{
    for i in (0..path.len()).rev() {
        let s = path[i].slot;
        if s == 0 {
            continue;
        }
        if let Some(e) = over(pool, s - 1, s - 1, Aim::End, &mut path[i..])? {
            return Ok(Some(e));
        }
    }
    Ok(None)
}

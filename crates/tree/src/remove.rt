// Removal along a path: the entry after its gap goes. All pages that will be read are looked at before the first store.
// An entry of an upper page is replaced by the greatest below its left child, which comes up from the leaf; pages left
// with three are mended, from the leaf upward. What a page refuses there is dropped (`let _`): in a sound pool nothing
// is, since all was looked at before. What clauses ask of the pool no type says: see the crate lend, src/lib.rt.
ghost use Rattle.std.specs.Prelude.{◌≡◌, true, [], ◌∷◌, ◌≤◌, leb, length};
ghost use Rattle.model.specs.Basics.{every};
ghost use Rattle.model.specs.Layout.{today, most_levels, first_word};
ghost use Rattle.model.specs.Head.{levels_word, headed};
ghost use Rattle.model.specs.Page.{count_of};
ghost use Rattle.lend.specs.Pages.{least, most, Inside, page_in};
ghost use Rattle.tree.specs.Sits.{pages_of, slots_of, PathIn};
ghost use Rattle.tree.specs.Remove.{count_below, plan_by, Plans, MovesLeft, MovesRight, JoinsBelow, Mends, TakesOut, Inherits, RemovesBelow, Beside, CanRemove, Lowers, Removes};
ghost use Rattle.model.specs.Mend as mends;

use crate::search;
use crate::steps::Spot;
use lend::{bits, pages};
use model::{COUNT, LEAST, LEVELS, MOST, ROOT};
use page::{Entry, Unsound};

// How a page left with three is mended, by neighbours j and j + 1: the left one gives an entry, the right one does, or
// they join. `Keep` is one of the cases, as in the model's plan, and no `None` around the others.
#[derive(Clone, Copy)]
pub enum Mending {
    Keep,
    Left(usize),
    Right(usize),
    Join(usize),
}

// How many entries child `at` of page `u` has.
fn count_below(pool: &[u64], u: usize, at: usize) -> usize
    requires { (first_word today 0 ≤ length pool.now) × Inside u pool.now }
    ensures { result ≡ count_below pool.now u at }
{
    match search::child(pool, u, at) {
        Ok(c) => pages::count(pool, c),
        Err(_) => 0,
    }
}

// How child `i` of page `u`, left with three, is mended.
fn repair(pool: &[u64], u: usize, i: usize) -> Mending
    requires { (first_word today 0 ≤ length pool.now) × Inside u pool.now × (i ≤ most) }
    ensures { plan_by (count_below pool.now u) result ≡ mends.repair least (count_of (page_in pool.now u)) (count_below pool.now u) i }
{
    if 0 < i && LEAST < count_below(pool, u, i - 1) {
        return Mending::Left(i - 1);
    }
    if i < pages::count(pool, u) && LEAST < count_below(pool, u, i + 1) {
        return Mending::Right(i);
    }
    Mending::Join(i.saturating_sub(1))
}

// Whether child `i` of page `u` is to be mended, and how.
fn plan(pool: &[u64], u: usize, i: usize) -> Mending
    requires { (first_word today 0 ≤ length pool.now) × Inside u pool.now × (i ≤ most) }
    ensures { Plans pool.now u i result }
{
    if LEAST <= count_below(pool, u, i) {
        Mending::Keep
    } else {
        repair(pool, u, i)
    }
}

// Child `j` of page `u` gives its last entry to child `j + 1`, through the page. This, `move_right` and `join` are three,
// and none takes what to do as a closure: each promises something else.
fn move_left(pool: &mut [u64], u: usize, j: usize) -> Result<(), Unsound>
    requires { (first_word today 0 ≤ length pool.old) × Inside u pool.old × (j ≤ most) }
    ensures { MovesLeft u j pool.old pool.new }
{
    let l = search::child(pool, u, j)?;
    let r = search::child(pool, u, j + 1)?;
    pages::take_left(pool, u, j, l, r)
}

// Child `j + 1` of page `u` gives its first entry to child `j`, through the page.
fn move_right(pool: &mut [u64], u: usize, j: usize) -> Result<(), Unsound>
    requires { (first_word today 0 ≤ length pool.old) × Inside u pool.old × (j ≤ most) }
    ensures { MovesRight u j pool.old pool.new }
{
    let l = search::child(pool, u, j)?;
    let r = search::child(pool, u, j + 1)?;
    pages::take_right(pool, u, j, l, r)
}

// Children `j` and `j + 1` of page `u` become the left one, and the right one is freed.
fn join(pool: &mut [u64], u: usize, j: usize) -> Result<(), Unsound>
    requires { (first_word today 0 ≤ length pool.old) × Inside u pool.old × (j ≤ most) }
    ensures { JoinsBelow u j pool.old pool.new }
{
    let l = search::child(pool, u, j)?;
    let r = search::child(pool, u, j + 1)?;
    pages::join(pool, u, j, l, r)?;
    bits::free(pool, r);
    Ok(())
}

// Child `i` of page `u` may be left with three.
fn mend(pool: &mut [u64], u: usize, i: usize) -> Result<(), Unsound>
    requires { (first_word today 0 ≤ length pool.old) × Inside u pool.old × (i ≤ most) }
    ensures { Mends u i pool.old pool.new }
{
    match plan(pool, u, i) {
        Mending::Keep => Ok(()),
        Mending::Left(j) => move_left(pool, u, j),
        Mending::Right(j) => move_right(pool, u, j),
        Mending::Join(j) => join(pool, u, j),
    }
}

// The entry at slot `s` of a leaf goes. Where there is none its last goes, which is handed up, to take the place of the
// one after it.
fn take_out(pool: &mut [u64], p: usize, s: usize) -> Option<Entry>
    requires { Inside p pool.old }
    ensures { TakesOut p s pool.old pool.new result }
{
    let n = pages::count(pool, p);
    if s < n {
        let _ = pages::remove(pool, p, s, 0);
        return None;
    }
    if n == 0 || MOST < n {
        return None;
    }
    let last = pages::entry_at(pool, p, n - 1);
    let _ = pages::remove(pool, p, n - 1, 0);
    Some(last)
}

// What stands for entry `s` of an upper page.
fn inherit(pool: &mut [u64], p: usize, s: usize, gone: Option<Entry>) -> Option<Entry>
    requires { Inside p pool.old }
    ensures { Inherits p s gone pool.old pool.new result }
{
    let heir = gone?;
    if s < pages::count(pool, p) {
        let _ = pages::set_entry(pool, p, s, heir);
        return None;
    }
    Some(heir)
}

// From the leaf upward: the entry goes there, and each page above takes in what comes up and mends its child on the
// path. A page that hands nothing up, and whose child has enough, is the last: no page above it changes.
fn remove_along(pool: &mut [u64], path: &[Spot]) -> Option<Entry>
    requires today_in_bounds { first_word today 0 ≤ length pool.old }
    requires path_in { PathIn pool.old (pages_of path.now) (slots_of path.now) }
    ensures { RemovesBelow pool.old (pages_of path.now) (slots_of path.now) pool.new result }
{
    let (leaf, uppers) = path.split_last()?;
    let mut gone = take_out(pool, leaf.page, leaf.slot);
    for spot in uppers.iter().rev() {
        gone = inherit(pool, spot.page, spot.slot, gone);
        if count_below(pool, spot.page, spot.slot) < LEAST {
            let _ = mend(pool, spot.page, spot.slot);
        } else if gone.is_none() {
            return None;
        }
    }
    gone
}

// Whether child `at` of page `u` can be a neighbour.
fn neighbour(pool: &[u64], u: usize, at: usize) -> bool
    requires { (first_word today 0 ≤ length pool.now) × Inside u pool.now }
    ensures { result ≡ every (leb least (count_below pool.now u at) ∷ leb (count_below pool.now u at) most ∷ []) }
{
    let n = count_below(pool, u, at);
    LEAST <= n && n <= MOST
}

// Whether the neighbours of child `i` of page `u` are sound.
fn beside(pool: &[u64], u: usize, i: usize) -> bool
    requires { (first_word today 0 ≤ length pool.now) × Inside u pool.now × (i ≤ most) }
    ensures { Beside pool.now u i result }
{
    if 0 < i && !neighbour(pool, u, i - 1) {
        return false;
    }
    pages::count(pool, u) <= i || neighbour(pool, u, i + 1)
}

// Whether all that a removal reads is sound: the neighbours of each page that may be left short, from the leaf upward.
// By the index, since each turn reads two places of the path: windows of two would need one each as well.
fn can_remove(pool: &[u64], path: &[Spot]) -> bool
    requires today_in_bounds { first_word today 0 ≤ length pool.now }
    requires path_in { PathIn pool.now (pages_of path.now) (slots_of path.now) }
    ensures { CanRemove pool.now (pages_of path.now) (slots_of path.now) result }
{
    for i in (1..path.len()).rev() {
        if LEAST < pages::count(pool, path[i].page) {
            return true;
        }
        let above = path[i - 1];
        if !beside(pool, above.page, above.slot) {
            return false;
        }
    }
    true
}

// A root left without entries is freed.
fn lower_root(pool: &mut [u64], root: usize, levels: usize)
    requires { (first_word today 0 ≤ length pool.old) × Inside root pool.old × (levels ≤ most_levels today) × (1 ≤ levels) }
    ensures { Lowers root levels pool.old pool.new }
{
    if pages::count(pool, root) != 0 {
        return;
    }
    if levels == 1 {
        pool[ROOT] = 0;
        pool[LEVELS] = 0;
        bits::free(pool, root);
        return;
    }
    let Ok(c) = search::child(pool, root, 0) else {
        return;
    };
    pool[ROOT] = c as u64 + 1;
    pool[LEVELS] = levels as u64 - 1;
    bits::free(pool, root);
}

// The entry after the path's gap goes. Where that is refused no word has changed.
pub fn remove(pool: &mut [u64], path: &[Spot]) -> Result<(), Unsound>
    requires pool_value { headed pool.old ≡ true }
    requires path_len { length path.now ≡ levels_word pool.old }
    requires path_in { PathIn pool.old (pages_of path.now) (slots_of path.now) }
    ensures { Removes pool.old (pages_of path.now) (slots_of path.now) pool.new result }
{
    let Some(root) = path.first() else {
        return Err(Unsound);
    };
    if !can_remove(pool, path) {
        return Err(Unsound);
    }
    remove_along(pool, path);
    lower_root(pool, root.page, path.len());
    pool[COUNT] -= 1;
    Ok(())
}

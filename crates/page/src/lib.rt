// A page: word 0 the entry count, word 1 the height, then keys, values and child page numbers. Each function works on
// the words of one page, which are lent; any words are taken. `most` is the most entries a page may hold: 9 gives keys
// from word 2, values from 11, children from 20. In a leaf, whose height is 0, children are neither moved nor promised.
// Clauses ask that a page is long enough, and no type says it: each call lends the page anew out of a pool's words.
#![tactic(auto)]

ghost use Rattle.std.specs.Prelude.{◌≡◌, true, false, suc, ◌+◌, ◌*◌, ◌≤◌, ◌<◌, length, get_or};
ghost use Rattle.model.specs.Basics.{ins};
ghost use Rattle.model.specs.Tree.{no_entry};
ghost use Rattle.model.specs.Page.{count_of, height_of, entry_in, child_in, entries_of, children_of};
ghost use Rattle.model.specs.Standing.{Holds};
ghost use Rattle.model.specs.Insert.{cut_left};
ghost use Rattle.page.specs.Runs.{up_to};
ghost use Rattle.page.specs.Node.{alone, more, wider, less, instead};
ghost use Rattle.page.specs.Page.{Long, plain, said, firsts, count_in, room_at, holds_at, full_at, gap_in, place_of, Changes, Splits};

pub mod runs;

// `most` goes with the page into each function, and no struct has the two: what is lent is words, shared or to be
// changed, and a struct would be made anew for each call.

// ---- reading

// What a page refuses: its words are no page's of a sound pool, or it has no such slot, or no room. Nothing has been
// stored.
#[derive(Clone, Copy, Debug, PartialEq, Eq)]
pub struct Unsound;

// Where a key belongs in a page: at the entry that has it, or in the gap of a slot. No `Result<usize, usize>`, as a
// binary search answers, since `find` has an error of its own: one in the other would be no plainer.
#[derive(Clone, Copy)]
pub enum Place {
    Here(usize),
    Gap(usize),
}

// An entry by value.
#[derive(Clone, Copy, Debug, PartialEq, Eq)]
pub struct Entry {
    pub key: u64,
    pub value: u64,
}

// How many entries, where so many can be.
fn counted(page: &[u64], most: usize) -> Result<usize, Unsound>
    requires { 1 ≤ length page.now }
    ensures { result ≡ count_in most page.now }
{
    let n = page[0] as usize;
    if n == 0 || most < n {
        return Err(Unsound);
    }
    Ok(n)
}

// The slot of the gap before `key`: after the keys below it.
#[tactic(auto, using(crate::proofs::Finding::counts))]
pub fn gap_before(page: &[u64], most: usize, key: u64) -> Result<usize, Unsound>
    requires { Long most page.now × (most < 64) }
    ensures { result ≡ gap_in most page.now (up_to key false) }
{
    let n = counted(page, most)?;
    Ok(runs::scan(&page[2..2 + most], n, key, false))
}

// The slot of the gap after `key`: after the keys up to it. Above the leaves the way there is mostly that of the call
// before, as from next to next, and `walk` is faster; so this is not `gap_before` with another bit.
#[tactic(auto, using(crate::proofs::Finding::counts))]
pub fn gap_after(page: &[u64], most: usize, key: u64) -> Result<usize, Unsound>
    requires { Long most page.now × (most < 64) }
    ensures { result ≡ gap_in most page.now (up_to key true) }
{
    let n = counted(page, most)?;
    if page[1] != 0 {
        return Ok(runs::walk(&page[2..2 + n], key));
    }
    Ok(runs::scan(&page[2..2 + most], n, key, true))
}

// Where `key` belongs. Both tests are made, with one jump for the two.
#[tactic(auto, using(crate::proofs::Finding::counts))]
pub fn find(page: &[u64], most: usize, key: u64) -> Result<Place, Unsound>
    requires { Long most page.now × (most < 64) }
    ensures { result ≡ place_of most page.now key }
{
    let slot = gap_before(page, most, key)?;
    if (slot < page[0] as usize) & (page[2 + slot] == key) {
        return Ok(Place::Here(slot));
    }
    Ok(Place::Gap(slot))
}

// How many entries, by the page's own word: any number.
pub fn count(page: &[u64]) -> usize
    requires { 1 ≤ length page.now }
    ensures { result ≡ count_of page.now }
{
    page[0] as usize
}

// How high above the leaves, by the page's own word.
pub fn height(page: &[u64]) -> u64
    requires { 2 ≤ length page.now }
    ensures { result ≡ height_of page.now }
{
    page[1]
}

// What stands at slot `slot`, be it an entry or not.
pub fn entry_at(page: &[u64], most: usize, slot: usize) -> Entry
    requires { Long most page.now × (slot < most) }
    ensures { plain result ≡ entry_in most page.now slot }
{
    Entry {
        key: page[2 + slot],
        value: page[2 + most + slot],
    }
}

// What stands at the place of child `at`.
pub fn child_at(page: &[u64], most: usize, at: usize) -> u64
    requires { Long most page.now × (at ≤ most) }
    ensures { result ≡ child_in most page.now at }
{
    page[2 + 2 * most + at]
}

// ---- tests

// Room for one entry more at slot `slot`, and for a child at place `at`.
pub fn has_room(page: &[u64], most: usize, slot: usize, at: usize) -> bool
    requires { Long most page.now }
    ensures { result ≡ room_at most page.now slot at }
{
    let n = page[0] as usize;
    1 <= n && n < most && slot <= n && at <= n + 1
}

// An entry at slot `slot`, and a child at place `at`.
pub fn holds(page: &[u64], most: usize, slot: usize, at: usize) -> bool
    requires { Long most page.now }
    ensures { result ≡ holds_at most page.now slot at }
{
    let n = page[0] as usize;
    n <= most && slot < n && at <= n
}

// No room for one entry more, which would stand at slot `slot`.
pub fn is_full(page: &[u64], most: usize, slot: usize) -> bool
    requires { Long most page.now }
    ensures { result ≡ full_at most page.now slot }
{
    page[0] as usize == most && slot <= most
}

// ---- one page changed

// A page of one entry and two children.
pub fn single(page: &mut [u64], most: usize, height: u64, entry: Entry, left: u64, right: u64)
    requires { Long most page.old × (1 ≤ most) }
    ensures { Holds most height (alone (plain entry) left right) page.new }
{
    page[0] = 1;
    page[1] = height;
    page[2] = entry.key;
    page[2 + most] = entry.value;
    page[2 + 2 * most] = left;
    page[3 + 2 * most] = right;
}

// Another entry in the place of the one at `slot`.
#[tactic(auto, using(crate::proofs::Pages::told))]
pub fn set_entry(page: &mut [u64], most: usize, slot: usize, entry: Entry) -> Result<(), Unsound>
    requires { Long most page.old }
    ensures { Changes most (holds_at most page.old slot 0) (instead slot (plain entry) (said most page.old)) page.old page.new result }
{
    if !holds(page, most, slot, 0) {
        return Err(Unsound);
    }
    page[2 + slot] = entry.key;
    page[2 + most + slot] = entry.value;
    Ok(())
}

// An entry more before slot `slot` and, above the leaves, a child more before place `at`.
#[tactic(auto, using(crate::proofs::Pages::told))]
pub fn insert(
    page: &mut [u64],
    most: usize,
    slot: usize,
    entry: Entry,
    at: usize,
    child: u64,
) -> Result<(), Unsound>
    requires { Long most page.old }
    ensures { Changes most (room_at most page.old slot at) (more slot (plain entry) at child (said most page.old)) page.old page.new result }
{
    if !has_room(page, most, slot, at) {
        return Err(Unsound);
    }
    let n = page[0] as usize;
    widen(page, most, n, slot, entry, at, child);
    Ok(())
}

// The same for a page that is taken to hold `n` entries, whatever its count says. All words of each part move, also
// those past the count, so that their number can be foreseen.
fn widen(page: &mut [u64], most: usize, n: usize, slot: usize, entry: Entry, at: usize, child: u64)
    requires { Long most page.old × (n < most) × (slot ≤ n) × (at ≤ suc n) }
    ensures { Holds most (height_of page.old) (more slot (plain entry) at child (firsts most n page.old)) page.new }
{
    runs::push_at(page, 2, most - 1, slot, entry.key);
    runs::push_at(page, 2 + most, most - 1, slot, entry.value);
    if page[1] != 0 {
        runs::push_at(page, 2 + 2 * most, most, at, child);
    }
    page[0] = n as u64 + 1;
}

// The same promise as `insert`, for an entry that goes behind the last.
#[tactic(auto, using(crate::proofs::Pages::told))]
pub fn put_last(
    page: &mut [u64],
    most: usize,
    slot: usize,
    entry: Entry,
    at: usize,
    child: u64,
) -> Result<(), Unsound>
    requires { Long most page.old }
    ensures { Changes most (room_at most page.old slot at) (more slot (plain entry) at child (said most page.old)) page.old page.new result }
{
    if !has_room(page, most, slot, at) {
        return Err(Unsound);
    }
    let n = page[0] as usize;
    if (slot == n) & (at == n + 1) {
        lengthen(page, most, n, entry, child);
    } else {
        widen(page, most, n, slot, entry, at, child);
    }
    Ok(())
}

// As `widen` does it, behind the last entry: nothing is moved.
fn lengthen(page: &mut [u64], most: usize, n: usize, entry: Entry, child: u64)
    requires { Long most page.old × (n < most) }
    ensures { Holds most (height_of page.old) (more n (plain entry) (suc n) child (firsts most n page.old)) page.new }
{
    runs::put_at(page, 2, n, entry.key);
    runs::put_at(page, 2 + most, n, entry.value);
    if page[1] != 0 {
        runs::put_at(page, 2 + 2 * most, n + 1, child);
    }
    page[0] = n as u64 + 1;
}

// Without the entry at slot `slot` and, above the leaves, the child at place `at`.
#[tactic(auto, using(crate::proofs::Pages::told))]
pub fn remove(page: &mut [u64], most: usize, slot: usize, at: usize) -> Result<(), Unsound>
    requires { Long most page.old }
    ensures { Changes most (holds_at most page.old slot at) (less slot at (said most page.old)) page.old page.new result }
{
    if !holds(page, most, slot, at) {
        return Err(Unsound);
    }
    let n = page[0] as usize;
    narrow(page, most, n, slot, at);
    Ok(())
}

// The same for a page that is known to hold `n` entries. All words of each part move, as in `widen`.
fn narrow(page: &mut [u64], most: usize, n: usize, slot: usize, at: usize)
    requires { Long most page.old × (n ≤ most) × (slot < n) × (at ≤ n) }
    ensures { Holds most (height_of page.old) (less slot at (firsts most n page.old)) page.new }
{
    runs::pull_at(page, 2, most, slot);
    runs::pull_at(page, 2 + most, most, slot);
    if page[1] != 0 {
        runs::pull_at(page, 2 + 2 * most, most + 1, at);
    }
    page[0] = n as u64 - 1;
}

// ---- a full page with one entry more

// Entry `i` of the page with one entry more, which stands at `slot`.
pub fn wider_entry(page: &[u64], most: usize, slot: usize, entry: Entry, i: usize) -> Entry
    requires { Long most page.now × (count_of page.now ≤ most) × (slot ≤ count_of page.now) × (i ≤ count_of page.now) }
    ensures { plain result ≡ get_or (ins slot (plain entry) (entries_of most page.now)) i no_entry }
{
    if i < slot {
        entry_at(page, most, i)
    } else if i == slot {
        entry
    } else {
        entry_at(page, most, i - 1)
    }
}

// Child `i` of the page with one child more, which stands at `at`. Not one function with `wider_entry`: it would be
// lent a closure for what stands at a place, with clauses of its own, for three cases.
pub fn wider_child(page: &[u64], most: usize, at: usize, child: u64, i: usize) -> u64
    requires { Long most page.now × (count_of page.now ≤ most) × (at ≤ suc (count_of page.now)) × (i ≤ suc (count_of page.now)) }
    ensures { result ≡ get_or (ins at child (children_of most page.now)) i 0 }
{
    if i < at {
        child_at(page, most, i)
    } else if i == at {
        child
    } else {
        child_at(page, most, i - 1)
    }
}

// A full page with one entry more, and the child after it, keeps the first `n` entries; the next one goes up. Those
// after it are given away beforehand.
#[tactic(auto, using(crate::proofs::Pages::told))]
pub fn split(
    page: &mut [u64],
    most: usize,
    n: usize,
    slot: usize,
    entry: Entry,
    child: u64,
) -> Result<Entry, Unsound>
    requires { Long most page.old × (n ≤ most) }
    ensures { Splits most n (full_at most page.old slot) (wider slot (plain entry) child (said most page.old)) page.old page.new result }
{
    if !is_full(page, most, slot) {
        return Err(Unsound);
    }
    let up = wider_entry(page, most, slot, entry, n);
    cut(page, most, n, slot, entry, child);
    Ok(up)
}

// The first `n` entries of a page with one entry more are what the page holds.
fn cut(page: &mut [u64], most: usize, n: usize, slot: usize, entry: Entry, child: u64)
    requires { Long most page.old × (n ≤ most) × (full_at most page.old slot ≡ true) }
    ensures { Holds most (height_of page.old) (cut_left n (wider slot (plain entry) child (said most page.old))) page.new }
{
    if slot < n {
        widen(page, most, n - 1, slot, entry, slot + 1, child);
    } else {
        page[0] = n as u64;
    }
}

// A page lent out of the pool's middle, `&mut pool[a..b]`, to the crate `page`; and what moves between two pages of one
// pool, which are lent one after the other: an entry and a child travel by value, one at a time. Every function takes
// any words; page numbers lie inside the pool, which clauses ask and no type says: the reason stands in src/lib.rt.
ghost use Rattle.model.specs.Layout.{today, page_words};
ghost use Rattle.std.specs.Prelude.{◌≡◌, ◌≢◌, true, false, [], ◌∷◌, suc, ◌+◌, ◌-◌, ◌≤◌, ◌<◌, length, get_or};
ghost use Rattle.model.specs.Basics.{ins, every};
ghost use Rattle.model.specs.Tree.{no_entry};
ghost use Rattle.model.specs.Page.{count_of, height_of, entry_in, child_in, entries_of, children_of};
ghost use Rattle.model.specs.Standing.{Holds};
ghost use Rattle.model.specs.Insert.{cut_right};
ghost use Rattle.model.specs.Mend.{glue};
ghost use Rattle.page.specs.Node.{alone, more, wider, less, instead};
ghost use Rattle.page.specs.Runs.{up_to};
ghost use Rattle.page.specs.Page.{plain, room_at, holds_at, full_at, gap_in, place_of};
ghost use Rattle.lend.specs.Pages.{most, keeps, Inside, OnlyPages, node_in, Becomes, ChangesIn, KeepsIn, can_split, SplitsIn, are_apart, can_pass, PassesIn, MovesIn, can_give, can_get, can_join, JoinsIn, page_in};

use model::{FIRST_PAGE, KEPT, LEAST, MOST, PAGE_WORDS};
use page::{Entry, Place, Unsound};

// Of ten entries, the first that is given away, and the child after it.
const GIVEN: usize = KEPT + 1;

const BEHIND: usize = KEPT + 2;

// ---- one page, read

pub fn page_at(pool: &[u64], p: usize) -> &[u64]
    requires { Inside p pool.now }
    ensures result_value { result.now ≡ page_in pool.now p }
    ensures result_len { length result.now ≡ page_words today }
{
    let a = FIRST_PAGE + PAGE_WORDS * p;
    &pool[a..a + PAGE_WORDS]
}

pub fn gap_before(pool: &[u64], p: usize, key: u64) -> Result<usize, Unsound>
    requires { Inside p pool.now }
    ensures { result ≡ gap_in most (page_in pool.now p) (up_to key false) }
{
    page::gap_before(page_at(pool, p), MOST, key)
}

pub fn gap_after(pool: &[u64], p: usize, key: u64) -> Result<usize, Unsound>
    requires { Inside p pool.now }
    ensures { result ≡ gap_in most (page_in pool.now p) (up_to key true) }
{
    page::gap_after(page_at(pool, p), MOST, key)
}

pub fn find(pool: &[u64], p: usize, key: u64) -> Result<Place, Unsound>
    requires { Inside p pool.now }
    ensures { result ≡ place_of most (page_in pool.now p) key }
{
    page::find(page_at(pool, p), MOST, key)
}

pub fn count(pool: &[u64], p: usize) -> usize
    requires { Inside p pool.now }
    ensures { result ≡ count_of (page_in pool.now p) }
{
    page::count(page_at(pool, p))
}

pub fn height(pool: &[u64], p: usize) -> u64
    requires { Inside p pool.now }
    ensures { result ≡ height_of (page_in pool.now p) }
{
    page::height(page_at(pool, p))
}

pub fn entry_at(pool: &[u64], p: usize, slot: usize) -> Entry
    requires { Inside p pool.now × (slot < most) }
    ensures { plain result ≡ entry_in most (page_in pool.now p) slot }
{
    page::entry_at(page_at(pool, p), MOST, slot)
}

pub fn child_at(pool: &[u64], p: usize, at: usize) -> u64
    requires { Inside p pool.now × (at ≤ most) }
    ensures { result ≡ child_in most (page_in pool.now p) at }
{
    page::child_at(page_at(pool, p), MOST, at)
}

// ---- one page, changed

pub fn single(pool: &mut [u64], p: usize, height: u64, entry: Entry, left: u64, right: u64)
    requires { Inside p pool.old }
    ensures holds { Holds most height (alone (plain entry) left right) (page_in pool.new p) }
    ensures only_pages { OnlyPages (p ∷ []) pool.old pool.new }
{
    let a = FIRST_PAGE + PAGE_WORDS * p;
    page::single(
        &mut pool[a..a + PAGE_WORDS],
        MOST,
        height,
        entry,
        left,
        right,
    );
}

pub fn set_entry(pool: &mut [u64], p: usize, slot: usize, entry: Entry) -> Result<(), Unsound>
    requires { Inside p pool.old }
    ensures { ChangesIn p (holds_at most (page_in pool.old p) slot 0) (instead slot (plain entry) (node_in pool.old p)) pool.old pool.new result }
{
    let a = FIRST_PAGE + PAGE_WORDS * p;
    page::set_entry(&mut pool[a..a + PAGE_WORDS], MOST, slot, entry)
}

pub fn insert(
    pool: &mut [u64],
    p: usize,
    slot: usize,
    entry: Entry,
    at: usize,
    child: u64,
) -> Result<(), Unsound>
    requires { Inside p pool.old }
    ensures { ChangesIn p (room_at most (page_in pool.old p) slot at) (more slot (plain entry) at child (node_in pool.old p)) pool.old pool.new result }
{
    let a = FIRST_PAGE + PAGE_WORDS * p;
    page::insert(&mut pool[a..a + PAGE_WORDS], MOST, slot, entry, at, child)
}

// The same promise as `insert`, for an entry that goes behind the last.
pub fn put_last(
    pool: &mut [u64],
    p: usize,
    slot: usize,
    entry: Entry,
    at: usize,
    child: u64,
) -> Result<(), Unsound>
    requires { Inside p pool.old }
    ensures { ChangesIn p (room_at most (page_in pool.old p) slot at) (more slot (plain entry) at child (node_in pool.old p)) pool.old pool.new result }
{
    let a = FIRST_PAGE + PAGE_WORDS * p;
    page::put_last(&mut pool[a..a + PAGE_WORDS], MOST, slot, entry, at, child)
}

pub fn remove(pool: &mut [u64], p: usize, slot: usize, at: usize) -> Result<(), Unsound>
    requires { Inside p pool.old }
    ensures { ChangesIn p (holds_at most (page_in pool.old p) slot at) (less slot at (node_in pool.old p)) pool.old pool.new result }
{
    let a = FIRST_PAGE + PAGE_WORDS * p;
    page::remove(&mut pool[a..a + PAGE_WORDS], MOST, slot, at)
}

// ---- a page that would hold ten

// Entry `i` of a full page with one entry more.
#[tactic(auto, using(crate::proofs::Several::tests))]
fn wider_entry(pool: &[u64], p: usize, slot: usize, entry: Entry, i: usize) -> Entry
    requires { Inside p pool.now × (full_at most (page_in pool.now p) slot ≡ true) × (i ≤ most) }
    ensures { plain result ≡ get_or (ins slot (plain entry) (entries_of most (page_in pool.now p))) i no_entry }
{
    page::wider_entry(page_at(pool, p), MOST, slot, entry, i)
}

// Child `i` of it.
#[tactic(auto, using(crate::proofs::Several::tests))]
fn wider_child(pool: &[u64], p: usize, slot: usize, child: u64, i: usize) -> u64
    requires { Inside p pool.now × (full_at most (page_in pool.now p) slot ≡ true) × (i ≤ suc most) }
    ensures { result ≡ get_or (ins (suc slot) child (children_of most (page_in pool.now p))) i 0 }
{
    page::wider_child(page_at(pool, p), MOST, slot + 1, child, i)
}

// Page `q` gets the last four of ten, for which it has room. Page `p` is full, and is left as it was.
fn give(pool: &mut [u64], p: usize, q: usize, slot: usize, entry: Entry, child: u64)
    requires inside { Inside p pool.old × Inside q pool.old × (p ≢ q) }
    requires slot_value { full_at most (page_in pool.old p) slot ≡ true }
    ensures holds { Holds most (height_of (page_in pool.old p)) (cut_right q keeps (wider slot (plain entry) child (node_in pool.old p))) (page_in pool.new q) }
    ensures only_pages { OnlyPages (q ∷ []) pool.old pool.new }
{
    let h = height(pool, p);
    let first = wider_entry(pool, p, slot, entry, GIVEN);
    let left = wider_child(pool, p, slot, child, GIVEN);
    let right = wider_child(pool, p, slot, child, BEHIND);
    single(pool, q, h, first, left, right);
    for j in 1..LEAST {
        let e = wider_entry(pool, p, slot, entry, GIVEN + j);
        let c = wider_child(pool, p, slot, child, BEHIND + j);
        put_last(pool, q, j, e, j + 1, c).unwrap();
    }
}

// Page `p` keeps the first five of ten, and the sixth goes up.
fn keep(pool: &mut [u64], p: usize, slot: usize, entry: Entry, child: u64) -> Result<Entry, Unsound>
    requires { Inside p pool.old }
    ensures { KeepsIn p (full_at most (page_in pool.old p) slot) (wider slot (plain entry) child (node_in pool.old p)) pool.old pool.new result }
{
    let a = FIRST_PAGE + PAGE_WORDS * p;
    page::split(&mut pool[a..a + PAGE_WORDS], MOST, KEPT, slot, entry, child)
}

// A full page `p` with one entry more, and the child after it.
pub fn split(
    pool: &mut [u64],
    p: usize,
    q: usize,
    slot: usize,
    entry: Entry,
    child: u64,
) -> Result<Entry, Unsound>
    requires { Inside p pool.old × Inside q pool.old }
    ensures { SplitsIn p q (can_split pool.old p q slot) (wider slot (plain entry) child (node_in pool.old p)) pool.old pool.new result }
{
    if p == q || !page::is_full(page_at(pool, p), MOST, slot) {
        return Err(Unsound);
    }
    give(pool, p, q, slot, entry, child);
    keep(pool, p, slot, entry, child)
}

// ---- two neighbours and their parent

// Whether three pages are three.
fn apart(u: usize, l: usize, r: usize) -> bool
    ensures { result ≡ every (are_apart u l r) }
{
    u != l && u != r && l != r
}

// Where an entry stands or goes, with the child beside it: a page, a slot and the child's place.
#[derive(Clone, Copy, Debug, PartialEq, Eq)]
struct Seat {
    page: usize,
    slot: usize,
    child: usize,
}

// Whether one entry can go from seat `from` to seat `to` through entry `i` of page `u`.
fn can_pass(pool: &[u64], u: usize, i: usize, from: Seat, to: Seat) -> bool
    requires { Inside u pool.now × Inside from.page pool.now × Inside to.page pool.now }
    ensures { result ≡ can_pass pool.now u i from.page from.slot from.child to.page to.slot to.child }
{
    apart(u, from.page, to.page)
        && page::holds(page_at(pool, u), MOST, i, 0)
        && page::holds(page_at(pool, from.page), MOST, from.slot, from.child)
        && page::has_room(page_at(pool, to.page), MOST, to.slot, to.child)
}

// The entry at seat `from` goes up to entry `i` of page `u`, and that one down to seat `to`; the child at `from` goes
// along, to the child's place at `to`. What the three pages are asked for was tested, so none of them refuses.
#[tactic(auto, using(crate::proofs::Several::tests))]
fn pass(pool: &mut [u64], u: usize, i: usize, from: Seat, to: Seat) -> Result<(), Unsound>
    requires { Inside u pool.old × Inside from.page pool.old × Inside to.page pool.old }
    ensures { PassesIn u i from.page from.slot from.child to.page to.slot to.child (can_pass pool.old u i from.page from.slot from.child to.page to.slot to.child) pool.old pool.new result }
{
    if !can_pass(pool, u, i, from, to) {
        return Err(Unsound);
    }
    let between = entry_at(pool, u, i);
    let moved = entry_at(pool, from.page, from.slot);
    let child = child_at(pool, from.page, from.child);
    insert(pool, to.page, to.slot, between, to.child, child).unwrap();
    set_entry(pool, u, i, moved).unwrap();
    remove(pool, from.page, from.slot, from.child)
}

// The right page takes one through the parent from its left neighbour.
pub fn take_left(pool: &mut [u64], u: usize, i: usize, l: usize, r: usize) -> Result<(), Unsound>
    requires { Inside u pool.old × Inside l pool.old × Inside r pool.old }
    ensures { MovesIn u i l r (count_of (page_in pool.old l) - 1) (can_give pool.old u i l r) pool.old pool.new result }
{
    let n = count(pool, l);
    if n == 0 {
        return Err(Unsound);
    }
    let last = Seat {
        page: l,
        slot: n - 1,
        child: n,
    };
    let front = Seat {
        page: r,
        slot: 0,
        child: 0,
    };
    pass(pool, u, i, last, front)
}

// The left page takes one through the parent from its right neighbour.
pub fn take_right(pool: &mut [u64], u: usize, i: usize, l: usize, r: usize) -> Result<(), Unsound>
    requires { Inside u pool.old × Inside l pool.old × Inside r pool.old }
    ensures { MovesIn u i l r (suc (count_of (page_in pool.old l))) (can_get pool.old u i l r) pool.old pool.new result }
{
    let n = count(pool, l);
    if MOST < n {
        return Err(Unsound);
    }
    let first = Seat {
        page: r,
        slot: 0,
        child: 0,
    };
    let end = Seat {
        page: l,
        slot: n,
        child: n + 1,
    };
    pass(pool, u, i, first, end)
}

// Whether two neighbours and the entry between them fit into one page.
fn can_join(pool: &[u64], u: usize, i: usize, l: usize, r: usize) -> bool
    requires { Inside u pool.now × Inside l pool.now × Inside r pool.now × (i < most) }
    ensures { result ≡ can_join pool.now u i l r }
{
    if !apart(u, l, r) || !page::holds(page_at(pool, u), MOST, i, i + 1) {
        return false;
    }
    let n = count(pool, l);
    let m = count(pool, r);
    1 <= n && 1 <= m && n < MOST && m < MOST - n
}

// An entry, and then all of page `r`, at the end of page `l`, which has room for them.
fn append(pool: &mut [u64], l: usize, entry: Entry, r: usize)
    requires inside { Inside l pool.old × Inside r pool.old × (l ≢ r) }
    requires bound { (1 ≤ count_of (page_in pool.old l)) × (count_of (page_in pool.old l) + count_of (page_in pool.old r) < most) }
    ensures becomes { Becomes l (glue (node_in pool.old l) (plain entry) (node_in pool.old r)) pool.old pool.new }
    ensures only_pages { OnlyPages (l ∷ []) pool.old pool.new }
{
    let n = count(pool, l);
    let m = count(pool, r);
    let first = child_at(pool, r, 0);
    put_last(pool, l, n, entry, n + 1, first).unwrap();
    for j in 0..m {
        let e = entry_at(pool, r, j);
        let c = child_at(pool, r, j + 1);
        put_last(pool, l, n + 1 + j, e, n + 2 + j, c).unwrap();
    }
}

// Two neighbours and the entry between them become the left page; the right page keeps its words, and its number leaves
// the parent.
#[tactic(auto, using(crate::proofs::Several::tests))]
pub fn join(pool: &mut [u64], u: usize, i: usize, l: usize, r: usize) -> Result<(), Unsound>
    requires { Inside u pool.old × Inside l pool.old × Inside r pool.old × (i < most) }
    ensures { JoinsIn u i l r (can_join pool.old u i l r) pool.old pool.new result }
{
    if !can_join(pool, u, i, l, r) {
        return Err(Unsound);
    }
    let between = entry_at(pool, u, i);
    append(pool, l, between, r);
    remove(pool, u, i, i + 1)
}

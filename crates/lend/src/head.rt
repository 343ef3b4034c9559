// The head: whether the length is allowed and the head fits, which every call asks first, and the number of levels. The
// tests come in document 01's order. What clauses ask of the pool no type says: the reason stands in src/lib.rt.
ghost use Rattle.model.specs.Layout.{today, head_words, most_pages, most_levels, allowed};
ghost use Rattle.std.specs.Prelude.{◌≡◌, true, map, ◌≤◌, eqb, length};
ghost use Rattle.model.specs.Basics.{every};
ghost use Rattle.model.specs.Head.{levels_word, spare_words, both_or_neither, number_tests, headed};
ghost use Rattle.model.specs.Layout as layout;

use crate::bits;
use model::{
    AFTER, COUNT, FIRST_PAGE, HEAD_WORDS, KIND, LEVELS, MOST, MOST_LEVELS, MOST_PAGES, OPEN,
    PAGE_WORDS, ROOT,
};

// The first of the words that are 0.
const SPARE: usize = 9;

// Whether the words 9 to 31 are 0: all of them are looked at, with no test on the way.
fn spare_zero(pool: &[u64]) -> bool
    requires { head_words ≤ length pool.now }
    ensures { result ≡ every (map (λ x. eqb x 0) (spare_words pool.now)) }
{
    let mut all = 0;
    for word in &pool[SPARE..HEAD_WORDS] {
        all |= *word;
    }
    all == 0
}

// Whether both are zero, or neither.
fn both_or_neither(a: u64, b: u64) -> bool
    ensures { result ≡ both_or_neither a b }
{
    (a == 0) == (b == 0)
}

// Whether a pool may have this length.
pub fn allowed(n: usize) -> bool
    ensures { result ≡ layout.allowed today n }
{
    if n < FIRST_PAGE + PAGE_WORDS {
        return false;
    }
    let pages = (n - FIRST_PAGE) / PAGE_WORDS;
    pages <= MOST_PAGES && n == FIRST_PAGE + PAGE_WORDS * pages
}

// Whether the head's numbers fit, in a pool of `pages` pages.
fn numbers(pool: &[u64], pages: u64) -> bool
    requires { (head_words ≤ length pool.now) × (pages ≤ most_pages today) }
    ensures { result ≡ every (number_tests today pages pool.now) }
{
    pool[0] == 1
        && pool[1] == pages
        && pool[COUNT] <= MOST as u64 * pages
        && pool[ROOT] <= pages
        && pool[LEVELS] <= MOST_LEVELS as u64
        && pool[OPEN] <= 1
        && pool[AFTER] <= 1
        && pool[KIND] <= 1
        && pool[KIND] + pool[OPEN] <= 1
        && both_or_neither(pool[COUNT], pool[ROOT])
        && both_or_neither(pool[COUNT], pool[LEVELS])
}

// Whether the length is allowed and the head fits.
pub fn fits(pool: &[u64]) -> bool
    ensures { result ≡ headed pool.now }
{
    allowed(pool.len()) && numbers(pool, bits::pages_in(pool) as u64) && spare_zero(pool)
}

// The number of levels.
pub fn levels(pool: &[u64]) -> usize
    requires { headed pool.now ≡ true }
    ensures { (result ≡ levels_word pool.now) × (result ≤ most_levels today) }
{
    pool[LEVELS] as usize
}

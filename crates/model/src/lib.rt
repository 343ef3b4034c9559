// The numbers of the layout, as code has them, each in this one place; what they stand for is in specs/Layout.
// Of itself a pool says only how many pages it has; all others are the same for every pool.
#![tactic(auto)]

ghost use Rattle.std.specs.Prelude.{◌≡◌, ◌≤◌};
ghost use Rattle.model.specs.Layout.{today, most_pages, first_word};

// Words of the head and of the page map, and the map's first word.
pub const HEAD_WORDS: usize = 32;

pub const MAP_WORDS: usize = 64;

// The first word of page 0, and the words of a page.
pub const FIRST_PAGE: usize = 96;

pub const PAGE_WORDS: usize = 32;

pub const MOST_PAGES: usize = 4096;

pub const MOST_LEVELS: usize = 6;

// The most entries of a page, the fewest of a page that is not the root, and how many a page that splits keeps.
pub const MOST: usize = 9;

pub const LEAST: usize = 4;

pub const KEPT: usize = 5;

// What pools may come to differ in: m, the fewest entries of a page that is not the root; the words of a page and of
// the map; the most pages and the most levels. The definitions are over such a value. Today there is one
// (specs/Layout), its numbers are those above, and no code is lent it yet.
#[derive(Clone, Copy)]
pub struct Geometry {
    pub least: usize,
    pub words: usize,
    pub map: usize,
    pub pages: usize,
    pub levels: usize,
}

// Words of the head: the entry count, the root's page plus 1, the levels; the cursor's three; the kind.
pub const COUNT: usize = 2;

pub const ROOT: usize = 3;

pub const LEVELS: usize = 4;

pub const OPEN: usize = 5;

pub const AFTER: usize = 6;

pub const KEY: usize = 7;

pub const KIND: usize = 8;

// The first word of page `p`; of page P, the length of a pool of P pages.
pub fn first_word(p: usize) -> usize
    requires { p ≤ most_pages today }
    ensures { result ≡ first_word today p }
{
    FIRST_PAGE + PAGE_WORDS * p
}

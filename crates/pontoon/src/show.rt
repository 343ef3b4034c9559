// The tree as a picture in text: a line a page, from the root down, a level deeper for each indent; then the free
// pages. The walk follows children with one level less at each step. What clauses ask of the pool no type says: see the
// crate lend, src/lib.rt.
ghost use Rattle.std.specs.Prelude.{◌≡◌, ◌<◌, ◌≤◌, ◌↔◌, true, IfOk, IsTrue};
ghost use Rattle.model.specs.Head.{headed};
ghost use Rattle.model.specs.Layout.{today, most_levels, most_pages};
ghost use Rattle.lend.specs.Pages.{most, Inside};
ghost use Rattle.lend.specs.Touches.{Sized};

use crate::reply::{Reply, Stop, plural};
use crate::stats;
use lend::{bits, pages};
use map::refusal::Refusal;
use model::{FIRST_PAGE, HEAD_WORDS, MOST, MOST_PAGES, ROOT};
use std::io;
use table::word_at;
use tree::search;

// The most pages that have a line; of more there is only the number.
const LINES: usize = 64;

// ---- a line

// What a page is shown by: its number, a bar of nine slots, and its first and last tick; a level deeper for each
// indent. How many entries it has.
fn line(rt: &impl Print, pool: &[u64], p: usize, deep: usize) -> io::Result<usize>
    requires inside { Inside p pool.now }
    requires deep { deep < most_levels today }
    ensures { IfOk result (λ n. n ≤ most) }
{
    let n = pages::count(pool, p);
    if n == 0 || MOST < n {
        return Ok(0);
    }
    let first = pages::entry_at(pool, p, 0).key;
    let last = pages::entry_at(pool, p, n - 1).key;
    let indent = 2 * deep;
    let free = MOST - n;
    println!(rt;
        "{:indent$}page {p} [{:#<n$}{:-<free$}] {n} of {MOST}, ticks {first} to {last}",
        "", "", ""
    )?;
    Ok(n)
}

// ---- the tree

fn is_inside(pool: &[u64], p: usize) -> bool
    ensures { IsTrue result ↔ (p < most_pages today) × Inside p pool.now }
{
    p < MOST_PAGES && model::first_word(p + 1) <= pool.len()
}

// Page `p` of height `h` and all below it, where `shown` pages have a line already; how many have one then.
fn picture(
    rt: &impl Print,
    pool: &[u64],
    p: usize,
    h: usize,
    root: usize,
    shown: usize,
) -> io::Result<usize>
    requires { root < most_levels today }
{
    if LINES <= shown || !is_inside(pool, p) {
        return Ok(shown);
    }
    let n = line(rt, pool, p, root.saturating_sub(h))?;
    let mut lines = shown + 1;
    if h == 0 {
        return Ok(lines);
    }
    for at in 0..n + 1 {
        if let Ok(c) = search::child(pool, p, at) {
            lines = picture(rt, pool, c, h - 1, root, lines)?;
        }
    }
    Ok(lines)
}

// From the root down; of a pool without levels there is nothing.
fn tree(rt: &impl Print, pool: &[u64]) -> io::Result<usize>
    requires { headed pool.now ≡ true }
{
    let levels = lend::head::levels(pool);
    let root = word_at(pool, ROOT) as usize;
    if levels == 0 || root == 0 {
        return Ok(0);
    }
    picture(rt, pool, root - 1, levels - 1, levels - 1, 0)
}

// ---- the pool

// The pages that are past the lines.
fn more(rt: &impl Print, shown: usize, taken: usize) -> io::Result<()> {
    if shown < taken {
        let n = taken - shown;
        println!(rt; "and {n} more page{}", plural(n as u64))?;
    }
    Ok(())
}

// The pages that are free.
fn free(rt: &impl Print, pool: &[u64], taken: usize) -> io::Result<()>
    requires { Sized pool.now }
{
    let all = bits::pages_in(pool);
    let left = all.saturating_sub(taken);
    match pagemap::lowest_free(&pool[HEAD_WORDS..FIRST_PAGE], all) {
        Some(p) => println!(rt; "free pages: {left}, the lowest is page {p}"),
        None => rt.println("free pages: none"),
    }
}

fn sound(rt: &impl Print, pool: &[u64]) -> io::Result<()>
    requires { headed pool.now ≡ true }
{
    let taken = bits::taken(pool);
    more(rt, tree(rt, pool)?, taken)?;
    free(rt, pool, taken)
}

// A pool that is not sound has no picture.
pub fn show(rt: &impl Print, pool: &[u64]) -> Result<Reply, Stop> {
    if !lend::head::fits(pool) {
        return Err(Stop::Refused(Refusal::Unfit));
    }
    if map::pool::check(pool) {
        sound(rt, pool)?;
    } else {
        stats::unsound(rt, pool)?;
    }
    Ok(Reply::Told)
}

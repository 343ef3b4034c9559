// What there is to say of a whole pool: its kind, entries, levels and pages, how full they are, the room left, and
// where the cursor is. Of a pool that is not sound, what its head says. That a head fits a clause asks and no type: see
// the crate lend, src/lib.rt.
ghost use Rattle.std.specs.Prelude.{◌≡◌, true};
ghost use Rattle.model.specs.Head.{headed};

use crate::kind::Kind;
use crate::look::PAGES;
use crate::reply::{Reply, Stop, plural};
use map::refusal::Refusal;
use model::{AFTER, COUNT, KEY, LEAST, LEVELS, MOST, OPEN};
use std::io;
use table::word_at;

// ---- numbers

// The entries of a page in the mean, as a part of nine, in percent; 0 where no page is taken.
fn percent(entries: u64, taken: u64) -> u64 {
    let slots = taken.saturating_mul(MOST as u64);
    entries.saturating_mul(100).checked_div(slots).unwrap_or(0)
}

// ---- lines

fn cursor(rt: &impl Print, pool: &[u64]) -> io::Result<()> {
    if word_at(pool, OPEN) == 0 {
        rt.println("cursor   closed")
    } else if word_at(pool, AFTER) == 0 {
        rt.println("cursor   open, at the start")
    } else {
        println!(rt; "cursor   open, after tick {}", word_at(pool, KEY))
    }
}

// The new ticks that fit whichever they are, for no insert is refused for room while there are at most 4 entries a
// page; and how many could at most, for a page holds 9.
fn room(rt: &impl Print, entries: u64, pages: u64) -> io::Result<()> {
    let sure = pages
        .saturating_mul(LEAST as u64)
        .saturating_add(1)
        .saturating_sub(entries);
    let most = pages.saturating_mul(MOST as u64).saturating_sub(entries);
    println!(rt;
        "room     {sure} new tick{} for sure, at most {most}",
        plural(sure)
    )
}

// ---- the pool

// What the head says and no more, for the tree of a pool that is not sound is not walked.
pub fn unsound(rt: &impl Print, pool: &[u64]) -> io::Result<()> {
    rt.println("not sound; its head says:")?;
    println!(rt; "kind     {}", Kind::of(pool))?;
    println!(rt; "entries  {}", word_at(pool, COUNT))?;
    println!(rt; "levels   {}", word_at(pool, LEVELS))?;
    println!(rt; "pages    {}", word_at(pool, PAGES))?;
    cursor(rt, pool)
}

fn sound(rt: &impl Print, pool: &[u64]) -> io::Result<()>
    requires { headed pool.now ≡ true }
{
    let taken = lend::bits::taken(pool) as u64;
    let pages = word_at(pool, PAGES);
    let free = pages.saturating_sub(taken);
    let entries = word_at(pool, COUNT);
    println!(rt; "kind     {}", Kind::of(pool))?;
    println!(rt; "entries  {entries}")?;
    println!(rt; "levels   {}", word_at(pool, LEVELS))?;
    println!(rt; "pages    {pages}: {taken} taken, {free} free")?;
    println!(rt;
        "fill     {} percent of a page in the mean",
        percent(entries, taken)
    )?;
    room(rt, entries, pages)?;
    cursor(rt, pool)
}

// As `show::show`, but for what is said of a sound pool. That asks for a head that fits, so one function for both would
// be lent it as a closure, clause and all.
pub fn stats(rt: &impl Print, pool: &[u64]) -> Result<Reply, Stop> {
    if !lend::head::fits(pool) {
        return Err(Stop::Refused(Refusal::Unfit));
    }
    if map::pool::check(pool) {
        sound(rt, pool)?;
    } else {
        unsound(rt, pool)?;
    }
    Ok(Reply::Told)
}

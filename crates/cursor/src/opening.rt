// Opening: the gap that a lower or an upper bound chooses. Lower Unbounded is the start, which is known without a page;
// any other gap costs one search from the root, whose path lies in the frame, for there is no heap.
// What clauses ask of the pool no type says: the reason stands in the crate lend, src/lib.rt.
ghost use Rattle.std.specs.Prelude.{◌≡◌, true};
ghost use Rattle.model.specs.Head.{levels_word, headed};
ghost use Rattle.model.specs.Call.{ReadsPages};
ghost use Rattle.model.specs.CursorCalls.{cursor_open_lower, cursor_open_upper};
ghost use Rattle.map.specs.Answers.{outcome_of, itself};
ghost use Rattle.cursor.specs.Open.{Opens, OpensBy, aim_read};

use crate::gap;
use map::bound::Bound;
use map::refusal::{MAP, Refusal};
use map::{bound, refusal};
use model::{MOST_LEVELS, OPEN};
use tree::search::Aim;
use tree::steps::Spot;

// At the gap of an aim; the pages read.
fn at(pool: &mut [u64], aim: Aim) -> Result<usize, Refusal>
    requires { headed pool.old ≡ true }
    ensures { Opens aim (aim_read aim (levels_word pool.old)) pool.old pool.new result }
{
    if let Aim::Start = aim {
        gap::lay_behind(pool, None);
        return Ok(0);
    }
    let levels = lend::head::levels(pool);
    let mut places = [Spot::default(); MOST_LEVELS];
    let path = &mut places[..levels];
    tree::search::seek(pool, aim, path)?;
    let behind = tree::steps::spot_before(pool, path);
    gap::rest(pool, behind);
    Ok(levels)
}

// At the gap of a bound, where no test refuses; the pages read.
fn by(pool: &mut [u64], aim: Result<Aim, Refusal>) -> Result<usize, Refusal>
    ensures { OpensBy aim pool.old pool.new result }
{
    refusal::reading(pool, MAP)?;
    let aim = aim?;
    if pool[OPEN] == 1 {
        return Err(Refusal::Opened);
    }
    at(pool, aim)
}

// The gap after the entries that come before a lower bound; the pages read.
pub fn lower(pool: &mut [u64], bound: Bound) -> Result<usize, Refusal>
    ensures { ReadsPages (cursor_open_lower bound.kind bound.key) (λ n. n) pool.old pool.new (outcome_of itself result) }
{
    by(pool, bound::lower(bound))
}

// The gap after the entries that come before an upper bound; the pages read.
pub fn upper(pool: &mut [u64], bound: Bound) -> Result<usize, Refusal>
    ensures { ReadsPages (cursor_open_upper bound.kind bound.key) (λ n. n) pool.old pool.new (outcome_of itself result) }
{
    by(pool, bound::upper(bound))
}

// Insert after and remove next: the entry after the gap put in or taken away, along the gap's path, so that each costs
// one descent. The gap names the entry before it, or the start, and neither call touches that.
// The path lies in the frame of each: there is no heap, and a frame can't be handed out.
// What clauses ask of the pool no type says: the reason stands in the crate lend, src/lib.rt.
ghost use Rattle.std.specs.Prelude.{◌≡◌, true};
ghost use Rattle.model.specs.Head.{headed};
ghost use Rattle.model.specs.Call.{Meets};
ghost use Rattle.model.specs.CursorCalls.{cursor_insert_after, cursor_remove_next};
ghost use Rattle.tree.specs.Steps.{Within};
ghost use Rattle.map.specs.Answers.{outcome_of, itself};
ghost use Rattle.cursor.specs.Answers.{entry_of};
ghost use Rattle.cursor.specs.Ahead.{fits_at};

use crate::{ahead, gap};
use map::refusal::Refusal;
use model::MOST_LEVELS;
use page::Entry;
use tree::steps::Spot;

// Whether a key lies strictly between the gap's neighbours: above the key that the gap names, and under that of the
// entry after it.
fn fits(pool: &[u64], next: Option<Spot>, key: u64) -> bool
    requires pool_value { headed pool.now ≡ true }
    requires within { Within pool.now next }
    ensures { result ≡ fits_at pool.now next key }
{
    if let Some(named) = gap::named(pool)
        && key <= named
    {
        return false;
    }
    match next {
        Some(spot) => key < lend::pages::entry_at(pool, spot.page, spot.slot).key,
        None => true,
    }
}

// A new entry just after the gap. Key and value are two numbers, as C passes them.
pub fn insert_after(pool: &mut [u64], key: u64, value: u64) -> Result<(), Refusal>
    ensures { Meets (cursor_insert_after key value) pool.old pool.new (outcome_of itself result) }
{
    gap::ready(pool)?;
    let levels = lend::head::levels(pool);
    let mut places = [Spot::default(); MOST_LEVELS];
    let path = &mut places[..levels];
    let next = ahead::seek(pool, path)?;
    if !fits(pool, next, key) {
        return Err(Refusal::Misplaced);
    }
    Ok(tree::insert::insert(pool, path, Entry { key, value })?)
}

// The entry after the gap goes.
pub fn remove_next(pool: &mut [u64]) -> Result<Option<Entry>, Refusal>
    ensures { Meets cursor_remove_next pool.old pool.new (outcome_of entry_of result) }
{
    gap::ready(pool)?;
    let levels = lend::head::levels(pool);
    let mut places = [Spot::default(); MOST_LEVELS];
    let path = &mut places[..levels];
    let Some(spot) = ahead::seek(pool, path)? else {
        return Ok(None);
    };
    let e = lend::pages::entry_at(pool, spot.page, spot.slot);
    tree::remove::remove(pool, path)?;
    Ok(Some(e))
}

// The cursor: the calls of CursorMut on a map in a lent pool, whose head keeps the gap. Next and prev, the peeks, the
// writes and close stand here; opening is in `opening`, insert after and remove next in `edit`, playback in `play`.
// Every call takes any words: it tests length, head, kind and cursor first, refuses in document 01's order, and a
// refusal has changed no word.
#![tactic(auto)]

ghost use Rattle.model.specs.Call.{Meets};
ghost use Rattle.model.specs.CursorCalls.{cursor_next, cursor_prev, cursor_peek_next, cursor_peek_prev, cursor_write_next, cursor_write_prev, Closes};
ghost use Rattle.map.specs.Answers.{outcome_of, itself, option_of};
ghost use Rattle.cursor.specs.Answers.{entry_of};

pub mod ahead;
pub mod edit;
pub mod gap;
pub mod opening;
pub mod play;

use map::refusal::Refusal;
use model::MOST_LEVELS;
use page::Entry;
use tree::steps::Spot;

// ---- over an entry

// The entry after the gap, and the gap goes over it.
pub fn next(pool: &mut [u64]) -> Result<Option<Entry>, Refusal>
    ensures { Meets cursor_next pool.old pool.new (outcome_of entry_of result) }
{
    gap::ready(pool)?;
    let Some(spot) = ahead::find(pool)? else {
        return Ok(None);
    };
    let e = lend::pages::entry_at(pool, spot.page, spot.slot);
    gap::lay_behind(pool, Some(e.key));
    Ok(Some(e))
}

// The entry before the gap, and the gap goes over it: the search for that entry finds the gap before it too.
// The path lies in the frame, for there is no heap.
pub fn prev(pool: &mut [u64]) -> Result<Option<Entry>, Refusal>
    ensures { Meets cursor_prev pool.old pool.new (outcome_of entry_of result) }
{
    gap::ready(pool)?;
    let Some(key) = gap::named(pool) else {
        return Ok(None);
    };
    let levels = lend::head::levels(pool);
    let mut places = [Spot::default(); MOST_LEVELS];
    let path = &mut places[..levels];
    let Some(spot) = map::entry::seek(pool, key, path)? else {
        return Err(Refusal::Unsound);
    };
    let value = lend::pages::entry_at(pool, spot.page, spot.slot).value;
    let behind = tree::steps::spot_before(pool, path);
    gap::rest(pool, behind);
    Ok(Some(Entry { key, value }))
}

// ---- the gap stays

// The entry after the gap.
pub fn peek_next(pool: &[u64]) -> Result<Option<Entry>, Refusal>
    ensures { Meets cursor_peek_next pool.now pool.now (outcome_of entry_of result) }
{
    gap::ready(pool)?;
    match ahead::find(pool)? {
        Some(spot) => Ok(Some(lend::pages::entry_at(pool, spot.page, spot.slot))),
        None => Ok(None),
    }
}

// The entry before the gap, which the gap names.
pub fn peek_prev(pool: &[u64]) -> Result<Option<Entry>, Refusal>
    ensures { Meets cursor_peek_prev pool.now pool.now (outcome_of entry_of result) }
{
    gap::ready(pool)?;
    let Some(key) = gap::named(pool) else {
        return Ok(None);
    };
    let Some(found) = tree::search::get(pool, key)? else {
        return Err(Refusal::Unsound);
    };
    Ok(Some(Entry {
        key,
        value: found.value,
    }))
}

// Another value for the entry after the gap.
pub fn write_next(pool: &mut [u64], value: u64) -> Result<Option<u64>, Refusal>
    ensures { Meets (cursor_write_next value) pool.old pool.new (outcome_of option_of result) }
{
    gap::ready(pool)?;
    match ahead::find(pool)? {
        Some(spot) => Ok(Some(tree::write::write(pool, spot.page, spot.slot, value))),
        None => Ok(None),
    }
}

// Another value for the entry before the gap.
pub fn write_prev(pool: &mut [u64], value: u64) -> Result<Option<u64>, Refusal>
    ensures { Meets (cursor_write_prev value) pool.old pool.new (outcome_of option_of result) }
{
    gap::ready(pool)?;
    let Some(key) = gap::named(pool) else {
        return Ok(None);
    };
    let Some(spot) = map::entry::find(pool, key)? else {
        return Err(Refusal::Unsound);
    };
    Ok(Some(tree::write::write(pool, spot.page, spot.slot, value)))
}

// The map is free for other changes again.
pub fn close(pool: &mut [u64]) -> Result<(), Refusal>
    ensures { Closes pool.old pool.new (outcome_of itself result) }
{
    gap::ready(pool)?;
    gap::clear(pool);
    Ok(())
}

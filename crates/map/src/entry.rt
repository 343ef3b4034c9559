// One entry, by its key, in a pool of either kind: where it stands, in a pool whose head fits; where the cursor is
// closed too, a new one put in, one struck out; and get and contains, which are asked for a kind. One descent each. The
// path is lent from a small array in the frame, by each call anew: there is no heap, and a frame can't be handed out.
// What clauses ask of the pool no type says: the reason stands in the crate lend, src/lib.rt.
ghost use Rattle.std.specs.Prelude.{◌≡◌, true, length};
ghost use Rattle.model.specs.Head.{levels_word, headed};
ghost use Rattle.model.specs.Call.{ReadsPages};
ghost use Rattle.tree.specs.Sits.{pages_of, slots_of};
ghost use Rattle.map.specs.Answers.{outcome_of, found_of, seen_of};
ghost use Rattle.map.specs.Entry.{Changeable, SeeksKey, Finds, Adds, Strikes, gets_in, contains_in};

use crate::refusal::Refusal;
use crate::{Got, Seen, refusal};
use model::MOST_LEVELS;
use page::{Entry, Unsound};
use tree::search::Aim;
use tree::steps::Spot;

// The path of the gap before a key, and whether the entry after it is the key's.
pub fn seek(pool: &[u64], key: u64, path: &mut [Spot]) -> Result<Option<Spot>, Unsound>
    requires pool_value { headed pool.now ≡ true }
    requires path_len { length path.old ≡ levels_word pool.now }
    ensures { SeeksKey pool.now key (pages_of path.old) (slots_of path.old) (pages_of path.new) (slots_of path.new) result }
{
    tree::search::seek(pool, Aim::Before(key), path)?;
    let Some(spot) = tree::steps::spot_after(pool, path) else {
        return Ok(None);
    };
    if lend::pages::entry_at(pool, spot.page, spot.slot).key == key {
        return Ok(Some(spot));
    }
    Ok(None)
}

// Where a key's entry stands, if it is there.
pub fn find(pool: &[u64], key: u64) -> Result<Option<Spot>, Unsound>
    requires { headed pool.now ≡ true }
    ensures { Finds pool.now key result }
{
    let levels = lend::head::levels(pool);
    let mut path = [Spot::default(); MOST_LEVELS];
    seek(pool, key, &mut path[..levels])
}

// The entry of a key that has none; else where the one stands that it has, and no word is changed.
pub fn add(pool: &mut [u64], entry: Entry) -> Result<Option<Spot>, Refusal>
    requires { Changeable pool.old }
    ensures { Adds entry.key entry.value pool.old pool.new result }
{
    let levels = lend::head::levels(pool);
    let mut places = [Spot::default(); MOST_LEVELS];
    let path = &mut places[..levels];
    if let Some(spot) = seek(pool, entry.key, path)? {
        return Ok(Some(spot));
    }
    tree::insert::insert(pool, path, entry)?;
    Ok(None)
}

// A key's entry goes; the value that it had.
pub fn strike(pool: &mut [u64], key: u64) -> Result<Option<u64>, Unsound>
    requires { Changeable pool.old }
    ensures { Strikes key pool.old pool.new result }
{
    let levels = lend::head::levels(pool);
    let mut places = [Spot::default(); MOST_LEVELS];
    let path = &mut places[..levels];
    let Some(spot) = seek(pool, key, path)? else {
        return Ok(None);
    };
    let struck = lend::pages::entry_at(pool, spot.page, spot.slot);
    tree::remove::remove(pool, path)?;
    Ok(Some(struck.value))
}

// ---- the reading calls of both kinds

// The value of a key in a pool of a kind.
pub fn get(pool: &[u64], kind: u64, key: u64) -> Result<Got, Refusal>
    ensures { ReadsPages (gets_in kind key) (λ f. f.read) pool.now pool.now (outcome_of found_of result) }
{
    refusal::reading(pool, kind)?;
    match tree::search::get(pool, key)? {
        Some(found) => Ok(Got {
            value: Some(found.value),
            read: found.read,
        }),
        None => Ok(Got {
            value: None,
            read: lend::head::levels(pool),
        }),
    }
}

// Whether a key is there.
pub fn contains(pool: &[u64], kind: u64, key: u64) -> Result<Seen, Refusal>
    ensures { ReadsPages (contains_in kind key) (λ f. f.read) pool.now pool.now (outcome_of seen_of result) }
{
    let got = get(pool, kind, key)?;
    Ok(Seen {
        present: got.value.is_some(),
        read: got.read,
    })
}

// The entry after the gap: one search from the root finds the gap's path, and where that entry stands.
// The path lies in the frame of the call that looks for it: there is no heap.
// What clauses ask of the pool no type says: the reason stands in the crate lend, src/lib.rt.
ghost use Rattle.std.specs.Prelude.{◌≡◌, true, length};
ghost use Rattle.model.specs.Head.{levels_word, headed};
ghost use Rattle.tree.specs.Sits.{pages_of, slots_of};
ghost use Rattle.cursor.specs.Ahead.{FindsAhead, SeeksAhead};

use crate::gap;
use model::MOST_LEVELS;
use page::Unsound;
use tree::steps::Spot;

// The gap's path, and where the entry after it stands, if there is one.
pub fn seek(pool: &[u64], path: &mut [Spot]) -> Result<Option<Spot>, Unsound>
    requires pool_value { headed pool.now ≡ true }
    requires path_len { length path.old ≡ levels_word pool.now }
    ensures { SeeksAhead pool.now (pages_of path.old) (slots_of path.old) (pages_of path.new) (slots_of path.new) result }
{
    tree::search::seek(pool, gap::aim(pool), path)?;
    Ok(tree::steps::spot_after(pool, path))
}

pub fn find(pool: &[u64]) -> Result<Option<Spot>, Unsound>
    requires { headed pool.now ≡ true }
    ensures { FindsAhead pool.now result }
{
    let levels = lend::head::levels(pool);
    let mut path = [Spot::default(); MOST_LEVELS];
    seek(pool, &mut path[..levels])
}

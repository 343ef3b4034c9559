// Lists: the entries that are not before the lower bound and are before the upper one, in key order, into lent slices:
// the lesser of their number and the shortest slice. One descent to the lower bound, then the tree's steps, each answer
// taken apart and gone on with only for the entry that it carries.
// What clauses ask of the pool no type says: the reason stands in the crate lend, src/lib.rt.
ghost use Rattle.std.specs.Prelude.{◌≡◌, [], ◌∷◌, true, ◌≤◌, length, set};
ghost use Rattle.model.specs.Layout.{today, first_word};
ghost use Rattle.model.specs.Head.{headed};
ghost use Rattle.model.specs.Bound.{bound_of};
ghost use Rattle.model.specs.Refusal.{map_kind};
ghost use Rattle.model.specs.ListCalls.{key_column, value_column, Lists, list_tests};
ghost use Rattle.tree.specs.Sits.{PathIn, pages_of, slots_of};
ghost use Rattle.map.specs.Answers.{outcome_of, itself};
ghost use Rattle.map.specs.List.{Stops, Runs, Spans, Fills};

use crate::bound::Bound;
use crate::refusal::{MAP, Refusal};
use crate::{bound, refusal};
use model::MOST_LEVELS;
use page::{Entry, Unsound};
use tree::search::Aim;
use tree::steps::Spot;

// A number into a slice; past its end nothing is stored. By a test and no `get_mut`, as in pagemap's
// `take`: of a slice nothing is known of the words once that borrow is over.
fn store(slice: &mut [u64], i: usize, value: u64)
    ensures { slice.new ≡ set slice.old i value }
{
    if i < slice.len() {
        slice[i] = value;
    }
}

// A list that ends with no further entry, after `n`: where the pool is found unsound before anything is written it is
// refused; else it has told what it wrote.
fn stop(step: Result<Option<Entry>, Unsound>, n: usize) -> Result<usize, Refusal>
    ensures { Stops step n result }
{
    if n == 0 {
        step?;
    }
    Ok(n)
}

// The entries after the path's gap, up to the gap of `upper`, at most `most` of them. By index and no `zip`, for a
// slice that is not asked for is empty.
fn run(
    pool: &[u64],
    upper: Aim,
    path: &mut [Spot],
    most: usize,
    keys: &mut [u64],
    values: &mut [u64],
) -> Result<usize, Refusal>
    requires today_in_bounds { first_word today 0 ≤ length pool.now }
    requires path_in { PathIn pool.now (pages_of path.old) (slots_of path.old) }
    ensures { Runs pool.now upper (pages_of path.old) (slots_of path.old) most keys.old values.old keys.new values.new result }
{
    for i in 0..most {
        let step = tree::steps::next(pool, path);
        let Ok(Some(e)) = step else {
            return stop(step, i);
        };
        if !bound::before(upper, e.key) {
            return Ok(i);
        }
        store(keys, i, e.key);
        store(values, i, e.value);
    }
    Ok(most)
}

// The entries between two gaps, at most `most` of them. The path lies in the frame, for there is no heap.
fn span(
    pool: &[u64],
    lower: Aim,
    upper: Aim,
    most: usize,
    keys: &mut [u64],
    values: &mut [u64],
) -> Result<usize, Refusal>
    requires { headed pool.now ≡ true }
    ensures { Spans pool.now lower upper most keys.old values.old keys.new values.new result }
{
    let levels = lend::head::levels(pool);
    let mut places = [Spot::default(); MOST_LEVELS];
    let path = &mut places[..levels];
    tree::search::seek(pool, lower, path)?;
    run(pool, upper, path, most, keys, values)
}

// The list of a pool of a kind, between two bounds, at most `most` entries; a slice that is not asked for is empty.
fn fill(
    pool: &[u64],
    kind: u64,
    lower: Bound,
    upper: Bound,
    most: usize,
    keys: &mut [u64],
    values: &mut [u64],
) -> Result<usize, Refusal>
    ensures { Fills (list_tests kind lower.kind upper.kind pool.now) (bound_of lower.kind lower.key) (bound_of upper.kind upper.key) pool.now most keys.old values.old keys.new values.new result }
{
    refusal::reading(pool, kind)?;
    let start = bound::lower(lower)?;
    let end = bound::upper(upper)?;
    span(pool, start, end, most, keys, values)
}

// The keys of a pool of a kind: a map's, and a set's list.
pub fn keys_of(
    pool: &[u64],
    kind: u64,
    lower: Bound,
    upper: Bound,
    keys: &mut [u64],
) -> Result<usize, Refusal>
    ensures { Lists (list_tests kind lower.kind upper.kind pool.now) (bound_of lower.kind lower.key) (bound_of upper.kind upper.key) pool.now (key_column keys.old keys.new ∷ []) (outcome_of itself result) }
{
    let most = keys.len();
    fill(pool, kind, lower, upper, most, keys, &mut [])
}

// ---- the map's lists

// Each bound is a kind and a key, as C passes them: any numbers are taken, so a type would promise nothing of them.
// Keys and values go into two slices, for C lends two arrays.

pub fn entries(
    pool: &[u64],
    lower: Bound,
    upper: Bound,
    keys: &mut [u64],
    values: &mut [u64],
) -> Result<usize, Refusal>
    ensures { Lists (list_tests map_kind lower.kind upper.kind pool.now) (bound_of lower.kind lower.key) (bound_of upper.kind upper.key) pool.now (key_column keys.old keys.new ∷ value_column values.old values.new ∷ []) (outcome_of itself result) }
{
    let most = keys.len().min(values.len());
    fill(pool, MAP, lower, upper, most, keys, values)
}

pub fn keys(pool: &[u64], lower: Bound, upper: Bound, keys: &mut [u64]) -> Result<usize, Refusal>
    ensures { Lists (list_tests map_kind lower.kind upper.kind pool.now) (bound_of lower.kind lower.key) (bound_of upper.kind upper.key) pool.now (key_column keys.old keys.new ∷ []) (outcome_of itself result) }
{
    keys_of(pool, MAP, lower, upper, keys)
}

pub fn values(
    pool: &[u64],
    lower: Bound,
    upper: Bound,
    values: &mut [u64],
) -> Result<usize, Refusal>
    ensures { Lists (list_tests map_kind lower.kind upper.kind pool.now) (bound_of lower.kind lower.key) (bound_of upper.kind upper.key) pool.now (value_column values.old values.new ∷ []) (outcome_of itself result) }
{
    let most = values.len();
    fill(pool, MAP, lower, upper, most, &mut [], values)
}

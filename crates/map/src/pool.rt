// The calls that take a pool of either kind: make, clear, count, is-empty, copy, check. All but check look at lengths
// and head alone, and are exact on any words, sound or not.
ghost use Rattle.std.specs.Prelude.{◌≡◌, true, length};
ghost use Rattle.model.specs.Layout.{allowed, today};
ghost use Rattle.model.specs.PoolCalls.{fresh, Makes, Clears, Counts, TellsEmpty, Copies, Checks};
ghost use Rattle.map.specs.Answers.{outcome_of, itself};

use crate::refusal::Refusal;
use model::{COUNT, FIRST_PAGE, KIND, OPEN};

// A pool just made, whatever the words were; its pages keep theirs.
fn lay(pool: &mut [u64], kind: u64)
    requires { allowed today (length pool.old) ≡ true }
    ensures { pool.new ≡ fresh today kind pool.old }
{
    let pages = lend::bits::pages_in(pool);
    pool[0..FIRST_PAGE].fill(0);
    pool[0] = 1;
    pool[1] = pages as u64;
    pool[KIND] = kind;
}

// A new pool of a kind, in any words of a length that is allowed. The kind may be any number, as C passes it; one that
// is no kind's is refused.
pub fn make(pool: &mut [u64], kind: u64) -> Result<(), Refusal>
    ensures { Makes kind pool.old pool.new (outcome_of itself result) }
{
    if !lend::head::allowed(pool.len()) {
        return Err(Refusal::Unfit);
    }
    if 1 < kind {
        return Err(Refusal::OtherKind);
    }
    lay(pool, kind);
    Ok(())
}

// The same pool with no entry; it keeps its kind.
pub fn clear(pool: &mut [u64]) -> Result<(), Refusal>
    ensures { Clears pool.old pool.new (outcome_of itself result) }
{
    if !lend::head::fits(pool) {
        return Err(Refusal::Unfit);
    }
    if pool[OPEN] == 1 {
        return Err(Refusal::Opened);
    }
    let kind = pool[KIND];
    lay(pool, kind);
    Ok(())
}

// The number of entries.
pub fn count(pool: &[u64]) -> Result<u64, Refusal>
    ensures { Counts pool.now pool.now (outcome_of itself result) }
{
    if !lend::head::fits(pool) {
        return Err(Refusal::Unfit);
    }
    Ok(pool[COUNT])
}

// Whether there is none.
pub fn is_empty(pool: &[u64]) -> Result<bool, Refusal>
    ensures { TellsEmpty pool.now pool.now (outcome_of itself result) }
{
    Ok(count(pool)? == 0)
}

// Every word of the source. One by one, and no `copy_from_slice`: the archive would ask the C library for `memmove`.
fn copy_words(source: &[u64], destination: &mut [u64])
    requires { length source.now ≡ length destination.old }
    ensures { destination.new ≡ source.now }
{
    for i in 0..source.len() {
        destination[i] = source[i];
    }
}

// Every word of the source but words 5 to 7, which become 0; the destination may hold anything.
pub fn copy(source: &[u64], destination: &mut [u64]) -> Result<(), Refusal>
    ensures { Copies source.now destination.old destination.new (outcome_of itself result) }
{
    if !lend::head::fits(source) {
        return Err(Refusal::Unfit);
    }
    if !lend::head::allowed(destination.len()) {
        return Err(Refusal::Unfit);
    }
    if source.len() != destination.len() {
        return Err(Refusal::Lengths);
    }
    if lend::head::fits(destination) {
        if destination[OPEN] == 1 {
            return Err(Refusal::Opened);
        }
    }
    copy_words(source, destination);
    destination[OPEN..KIND].fill(0);
    Ok(())
}

// Whether the pool is sound; it never refuses.
pub fn check(pool: &[u64]) -> bool
    ensures { Checks pool.now result }
{
    tree::check::check(pool)
}

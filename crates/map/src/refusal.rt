// The refusals, in document 01's order, and the tests that need only lengths, head and arguments: a call passes them
// before it looks further.
ghost use Rattle.std.specs.Prelude.{◌≡◌};
ghost use Rattle.model.specs.Refusal.{refusal};
ghost use Rattle.model.specs.MapCalls.{read_tests, change_tests};
ghost use Rattle.map.specs.declared.refusal.Refusal.TheVariants.{NoRoom, Unsound};
ghost use Rattle.map.specs.Answers.{number_of, early_number};

use model::{KIND, OPEN};
use tree::insert::Full;

// The kinds of pool. Numbers and no enum: a call takes any number for a kind, as C passes it, and refuses others.
pub const MAP: u64 = 0;

pub const SET: u64 = 1;

// Why a call is refused; document 01's numbers, 1 to 9, in this order.
#[derive(Clone, Copy, Debug, PartialEq, Eq)]
pub enum Refusal {
    Unfit = 1,
    OtherKind,
    BadBound,
    Opened,
    Closed,
    Misplaced,
    NoRoom,
    Lengths,
    Unsound,
}

// A page that can't be is a pool found unsound.
impl From<page::Unsound> for Refusal {
    ghost from_gives = { λ _ r. r ≡ Unsound };

    fn from(_why: page::Unsound) -> Refusal {
        Refusal::Unsound
    }
}

// No page is free for an entry.
impl From<Full> for Refusal {
    ghost from_gives = { λ _ r. r ≡ NoRoom };

    fn from(_why: Full) -> Refusal {
        Refusal::NoRoom
    }
}

// Its number, for callers that are given numbers.
pub fn number(why: Refusal) -> u64
    ensures { result ≡ number_of why }
{
    why as u64
}

// Past the first tests of a call that reads a pool of a kind.
pub fn reading(pool: &[u64], kind: u64) -> Result<(), Refusal>
    ensures { early_number result ≡ refusal (read_tests kind pool.now) }
{
    if !lend::head::fits(pool) {
        return Err(Refusal::Unfit);
    }
    if pool[KIND] != kind {
        return Err(Refusal::OtherKind);
    }
    Ok(())
}

// Past those of a call that changes a pool of a kind.
pub fn changing(pool: &[u64], kind: u64) -> Result<(), Refusal>
    ensures { early_number result ≡ refusal (change_tests kind pool.now) }
{
    reading(pool, kind)?;
    if pool[OPEN] == 1 {
        return Err(Refusal::Opened);
    }
    Ok(())
}

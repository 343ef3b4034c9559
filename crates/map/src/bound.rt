// Bounds: kind 0 is Included, 1 is Excluded, 2 is Unbounded, the key then ignored; a kind of 3 or more is refused. A
// bound names a gap, and the keys before that gap are those that come before the bound: at the lower end the source's
// `before_lower_bound`, at the upper end its `before_upper_bound`.
ghost use Rattle.std.specs.Prelude.{◌≡◌};
ghost use Rattle.tree.specs.Search.{aimed};
ghost use Rattle.map.specs.Bound.{lower_by, upper_by};

use crate::refusal::Refusal;
use tree::search::Aim;

// A bound as a caller gives it: its kind and its key. The kind is a number and no enum: a call takes any, as C passes
// it, and refuses others.
#[derive(Clone, Copy, Debug, PartialEq, Eq)]
pub struct Bound {
    pub kind: u64,
    pub key: u64,
}

// The gap that a lower bound names.
pub fn lower(bound: Bound) -> Result<Aim, Refusal>
    ensures { result ≡ lower_by bound.kind bound.key }
{
    let kind = bound.kind;
    match kind {
        0 => Ok(Aim::Before(bound.key)),
        1 => Ok(Aim::After(bound.key)),
        2 => Ok(Aim::Start),
        3.. => Err(Refusal::BadBound),
    }
}

// The gap that an upper bound names: another side for each kind, so one function for both ends would be no shorter.
pub fn upper(bound: Bound) -> Result<Aim, Refusal>
    ensures { result ≡ upper_by bound.kind bound.key }
{
    let kind = bound.kind;
    match kind {
        0 => Ok(Aim::After(bound.key)),
        1 => Ok(Aim::Before(bound.key)),
        2 => Ok(Aim::End),
        3.. => Err(Refusal::BadBound),
    }
}

// Whether a key comes before the gap.
pub fn before(aim: Aim, key: u64) -> bool
    ensures { result ≡ aimed aim key }
{
    match aim {
        Aim::Before(k) => key < k,
        Aim::After(k) => key <= k,
        Aim::Start => false,
        Aim::End => true,
    }
}

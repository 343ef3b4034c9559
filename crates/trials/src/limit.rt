// Bounds as the library's calls take them, by kind and key, of bounds at places of the table. And the gap of the table
// that a bound at a place stands for.
use map::bound;
use std::ops::Bound;
use table::key_of;

// No bound at the lower end, and none at the upper one. Their keys are not to be looked at: taken for bounds, they would
// leave an entry at most.
pub const FROM_START: bound::Bound = bound::Bound {
    kind: 2,
    key: u64::MAX,
};

pub const TO_END: bound::Bound = bound::Bound { kind: 2, key: 0 };

pub fn included(key: u64) -> bound::Bound {
    bound::Bound { kind: 0, key }
}

// At a place of the table, or at none.
fn at(bound: Bound<usize>, unbounded: bound::Bound) -> bound::Bound {
    match bound {
        Bound::Included(place) => included(key_of(place)),
        Bound::Excluded(place) => bound::Bound {
            kind: 1,
            key: key_of(place),
        },
        Bound::Unbounded => unbounded,
    }
}

pub fn lower(bound: Bound<usize>) -> bound::Bound {
    at(bound, FROM_START)
}

pub fn upper(bound: Bound<usize>) -> bound::Bound {
    at(bound, TO_END)
}

// The gap at a lower bound, and at an upper one.
pub fn lower_gap(bound: Bound<usize>) -> usize {
    match bound {
        Bound::Included(place) => place,
        Bound::Excluded(place) => place.saturating_add(1),
        Bound::Unbounded => 0,
    }
}

pub fn upper_gap(bound: Bound<usize>, places: usize) -> usize {
    match bound {
        Bound::Included(place) => place.saturating_add(1),
        Bound::Excluded(place) => place,
        Bound::Unbounded => places,
    }
}

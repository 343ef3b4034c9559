// Numbers at random, each from the one before it, and what is drawn from one: the same in every run.
// The next one is made by shifts; what is drawn is some of a number's bits.
ghost use Rattle.std.specs.Prelude.{◌-◌, ◌≤◌};

use std::ops::Bound;

const SEED: u64 = 88172645463325252;

#[derive(Clone, Copy)]
pub struct Random(u64);

impl Random {
    // The first of a part of a trial.
    pub fn first(part: u64) -> Random {
        Random(SEED.wrapping_add(part)).next()
    }

    pub fn next(self) -> Random {
        let a = self.0 ^ (self.0 << 13);
        let b = a ^ (a >> 7);
        Random(b ^ (b << 17))
    }

    // A number below n; 0 where there is none.
    pub fn below(self, n: usize) -> usize
        ensures { result ≤ n - 1 }
    {
        if n == 0 {
            return 0;
        }
        ((self.0 >> 20) % n as u64) as usize
    }

    // One of sixteen.
    pub fn sixteenth(self) -> u64 {
        (self.0 >> 8) % 16
    }

    // One of two.
    pub fn coin(self) -> bool {
        (self.0 >> 16) % 2 == 1
    }

    // A bound of some kind, at a place of so many.
    pub fn bound(self, places: usize) -> Bound<usize> {
        bound(self.below(places), (self.0 >> 12) % 3)
    }

    // The same, and seldom without a place.
    pub fn placed_bound(self, places: usize) -> Bound<usize> {
        bound(self.below(places), (self.0 >> 12) % 16 / 7)
    }

    // A value, which is not 0.
    pub fn value(self) -> u64 {
        (self.0 >> 30) + 1
    }
}

fn bound(place: usize, kind: u64) -> Bound<usize> {
    match kind {
        0 => Bound::Included(place),
        1 => Bound::Excluded(place),
        _ => Bound::Unbounded,
    }
}

// Lists, and whether what one wrote is the table's: between two bounds, into columns of lengths of their own, which
// entries come, how many, and that no word past them is changed.
use crate::limit::{self, lower_gap, upper_gap};
use map::bound;
use map::refusal::Refusal;
use std::ops::Bound;
use table::random::Random;
use table::values::Lent;
use table::{Entries, PLACES, Table, UNTOUCHED};

#[derive(Clone, Copy)]
pub struct Bounds {
    pub lower: bound::Bound,
    pub upper: bound::Bound,
}

// A map's entries, keys or values, or a set's keys.
#[derive(Clone, Copy, PartialEq, Eq)]
pub enum List {
    Entries,
    Keys,
    Values,
    SetKeys,
}

impl List {
    // How many entries it wrote.
    pub fn write(
        self,
        pool: &[u64],
        bounds: Bounds,
        keys: &mut [u64],
        values: &mut [u64],
    ) -> Result<usize, Refusal> {
        let Bounds { lower, upper } = bounds;
        match self {
            List::Entries => map::list::entries(pool, lower, upper, keys, values),
            List::Keys => map::list::keys(pool, lower, upper, keys),
            List::Values => map::list::values(pool, lower, upper, values),
            List::SetKeys => map::set::list(pool, lower, upper, keys),
        }
    }
}

// ---- columns

// Keys and values apart, as the calls write them, in words that are lent and UNTOUCHED at first.
#[derive(Drop)]
pub struct Columns<'a> {
    pub keys: &'a mut [u64],
    pub values: &'a mut [u64],
}

// Whether no word of a column from a place on is written.
fn is_untouched(column: &[u64], place: usize) -> bool {
    column.iter().skip(place).all(|word| *word == UNTOUCHED)
}

impl Columns<'_> {
    // How many of these entries a list has room for: as many as the shorter column has words, or its one column.
    pub fn fitting(&self, list: List, entries: Entries<'_, Lent<'_>>) -> usize {
        let room = match list {
            List::Entries => self.keys.len().min(self.values.len()),
            List::Values => self.values.len(),
            List::Keys | List::SetKeys => self.keys.len(),
        };
        entries.take(room).count()
    }

    // Has a list written into them.
    fn list(&mut self, pool: &[u64], list: List, bounds: Bounds) -> Result<usize, Refusal> {
        list.write(pool, bounds, self.keys, self.values)
    }

    // Plays back into them.
    pub fn play(&mut self, pool: &mut [u64]) -> Result<usize, Refusal> {
        cursor::play::play(pool, self.keys, self.values)
    }

    // Whether the first n of these entries are in columns that nothing else was written to.
    pub fn are_right(&self, list: List, entries: Entries<'_, Lent<'_>>, n: usize) -> bool {
        let keys = if list == List::Values { 0 } else { n };
        let values = if list == List::Entries || list == List::Values {
            n
        } else {
            0
        };
        self.keys
            .iter()
            .zip(entries.take(keys))
            .all(|(word, held)| *word == held.key())
            && self
                .values
                .iter()
                .zip(entries.take(values))
                .all(|(word, held)| *word == held.value)
            && is_untouched(self.keys, keys)
            && is_untouched(self.values, values)
    }
}

// ---- between bounds

// Two bounds at places of the table.
#[derive(Clone, Copy)]
pub struct Span {
    lower: Bound<usize>,
    upper: Bound<usize>,
}

const WHOLE: Span = Span {
    lower: Bound::Unbounded,
    upper: Bound::Unbounded,
};

impl Span {
    pub fn drawn(random: Random, places: usize) -> Span {
        Span {
            lower: random.bound(places),
            upper: random.next().bound(places),
        }
    }

    // How many entries a list wrote, where they are the table's.
    fn list(
        self,
        pool: &[u64],
        list: List,
        table: &Table<Lent<'_>>,
        columns: Columns<'_>,
    ) -> Option<usize> {
        let bounds = Bounds {
            lower: limit::lower(self.lower),
            upper: limit::upper(self.upper),
        };
        let mut wrote = columns;
        let told = wrote.list(pool, list, bounds);
        let last = upper_gap(self.upper, table.places());
        let entries = table.entries(lower_gap(self.lower), last);
        let n = wrote.fitting(list, entries);
        (told == Ok(n) && wrote.are_right(list, entries, n)).then_some(n)
    }
}

// The whole list, with room to spare. Not inlined, for the stack's sake: else the columns would lie in the frame of a
// caller, and once more in that of another that it calls.
#[inline(never)]
pub fn whole(pool: &[u64], list: List, table: &Table<Lent<'_>>) -> Option<usize> {
    let mut keys = [UNTOUCHED; PLACES];
    let mut values = [UNTOUCHED; PLACES];
    let columns = Columns {
        keys: &mut keys,
        values: &mut values,
    };
    WHOLE.list(pool, list, table, columns)
}

// ---- at random

// The most words of a column of a length at random.
const ROOM: usize = 256;

// A list between bounds, into columns of lengths at random, of as many words as the table has places or fewer.
pub fn some(
    pool: &[u64],
    list: List,
    span: Span,
    table: &Table<Lent<'_>>,
    random: Random,
) -> Option<usize> {
    let other = if list == List::Entries {
        random.next()
    } else {
        random
    };
    let mut keys = [UNTOUCHED; ROOM];
    let mut values = [UNTOUCHED; ROOM];
    let columns = Columns {
        keys: &mut keys[..random.below(table.places()).min(ROOM)],
        values: &mut values[..other.below(table.places()).min(ROOM)],
    };
    span.list(pool, list, table, columns)
}

// Cursor calls at random on a map, each held against the table, as are the peeks after each. The gap is a place of the
// table: the entries at places below it come before it.
use crate::limit::{self, lower_gap, upper_gap};
use crate::lists::{Columns, List};
use crate::trial::Trial;
use map::refusal::Refusal;
use model::LEVELS;
use page::Entry;
use std::ops::Bound;
use table::random::Random;
use table::{Held, UNTOUCHED, key_of, word_at};

// The most words of a column of playback.
const SOME: usize = 24;

// A place for a new key: seldom that of the entry before the gap, that of the entry after it, or any; else one from
// `low` on and under `high`, where it fits.
fn drawn(low: usize, high: usize, places: usize, random: Random) -> usize {
    let place = match random.sixteenth() {
        0 => low.wrapping_sub(1),
        1 => high,
        2 => random.below(places),
        _ => low.wrapping_add(random.below(high.wrapping_sub(low))),
    };
    if place < places {
        place
    } else {
        random.below(places)
    }
}

// What a step shows.
fn shown(held: Option<Held>) -> Option<Entry> {
    held.map(|held| Entry {
        key: held.key(),
        value: held.value,
    })
}

impl Trial<'_, '_> {
    fn ahead(&self) -> Option<Held> {
        self.table.next_from(self.gap)
    }

    fn behind(&self) -> Option<Held> {
        self.table.last_before(self.gap)
    }

    // The gap where no entry is ahead.
    fn end(&self) -> usize {
        self.table.places()
    }

    // Whether the peeks show the entries on both sides of the gap.
    pub fn look_beside(&mut self) {
        let next = cursor::peek_next(self.pool);
        let prev = cursor::peek_prev(self.pool);
        let right = next == Ok(shown(self.ahead())) && prev == Ok(shown(self.behind()));
        self.tally.hold(right);
    }

    // ---- steps, writes, remove next

    fn next(&mut self) {
        let ahead = self.ahead();
        let entry = cursor::next(self.pool);
        self.tally.hold(entry == Ok(shown(ahead)));
        self.gap = ahead.map_or(self.end(), |held| held.end());
    }

    fn prev(&mut self) {
        let behind = self.behind();
        let entry = cursor::prev(self.pool);
        self.tally.hold(entry == Ok(shown(behind)));
        self.gap = behind.map_or(self.gap, |held| held.place);
    }

    // What a write answered, and what the table had there.
    fn wrote(&mut self, before: Result<Option<u64>, Refusal>, beside: Option<Held>, value: u64) {
        let had = beside.and_then(|held| self.table.insert(held.place, value));
        self.tally.hold(before == Ok(had));
    }

    fn write_next(&mut self, value: u64) {
        let before = cursor::write_next(self.pool, value);
        self.wrote(before, self.ahead(), value);
    }

    fn write_prev(&mut self, value: u64) {
        let before = cursor::write_prev(self.pool, value);
        self.wrote(before, self.behind(), value);
    }

    fn remove_next(&mut self) {
        let ahead = self.ahead();
        let entry = cursor::edit::remove_next(self.pool);
        self.tally.hold(entry == Ok(shown(ahead)));
        if let Some(held) = ahead {
            self.table.remove(held.place);
            self.tally.struck += 1;
        }
    }

    // ---- insert after

    // A key fits from the place after that of the entry before the gap on, and under that of the entry after it; the
    // gap stays before it. Refusals 6 and 7 are right where it doesn't fit, and where there is no room.
    fn insert_after(&mut self, random: Random) {
        let low = self.behind().map_or(0, |held| held.end());
        let high = self.ahead().map_or(self.end(), |held| held.place);
        let place = drawn(low, high, self.table.places(), random.next());
        let fits = low <= place && place < high;
        let value = random.value();
        match cursor::edit::insert_after(self.pool, key_of(place), value) {
            Err(Refusal::Misplaced) => {
                self.tally.misplaced += 1;
                self.tally.hold(!fits);
            }
            Err(Refusal::NoRoom) => {
                self.tally.full += 1;
                self.tally.hold(fits);
            }
            answer => {
                self.tally.new += 1;
                self.tally.hold(fits && answer.is_ok());
                self.table.insert(place, value);
            }
        }
        self.gap = low;
    }

    // ---- opening and closing

    pub fn close(&mut self) {
        let _ = cursor::close(self.pool);
    }

    // Opening reads a page of every level, and none at the start.
    pub fn open_lower(&mut self, bound: Bound<usize>) {
        let levels = match bound {
            Bound::Unbounded => 0,
            _ => word_at(self.pool, LEVELS),
        };
        let read = cursor::opening::lower(self.pool, limit::lower(bound));
        self.tally.hold(read == Ok(levels as usize));
        self.gap = lower_gap(bound);
    }

    fn open_upper(&mut self, bound: Bound<usize>) {
        let levels = word_at(self.pool, LEVELS);
        let read = cursor::opening::upper(self.pool, limit::upper(bound));
        self.tally.hold(read == Ok(levels as usize));
        self.gap = upper_gap(bound, self.end());
    }

    // Closed, and opened at a bound at random.
    fn reopen(&mut self, random: Random) {
        self.close();
        let bound = random.placed_bound(self.table.places());
        if random.coin() {
            self.open_upper(bound);
        } else {
            self.open_lower(bound);
        }
    }

    // ---- playback

    // The entries from the gap on, which goes over them, into columns of lengths at random.
    fn play(&mut self, random: Random) {
        let mut keys = [UNTOUCHED; SOME];
        let mut values = [UNTOUCHED; SOME];
        let mut wrote = Columns {
            keys: &mut keys[..random.below(SOME + 1)],
            values: &mut values[..random.next().below(SOME + 1)],
        };
        let told = wrote.play(self.pool);
        let end = self.end();
        let entries = self.table.entries(self.gap, end);
        let n = wrote.fitting(List::Entries, entries);
        let right = wrote.are_right(List::Entries, entries, n);
        let last = entries.take(n).last();
        self.tally.hold(right && told == Ok(n));
        self.tally.listed += n as u64;
        self.gap = last.map_or(self.gap, |held| held.end());
    }

    // ---- at random

    // `filed` of 16 are insertions, then removals, and the last seven the others.
    pub fn move_at_random(&mut self, random: Random, filed: u64) {
        let what = random.sixteenth();
        if what < filed {
            self.insert_after(random);
            return;
        }
        match what {
            0..=8 => self.remove_next(),
            9 => self.write_next(random.value()),
            10 => self.write_prev(random.value()),
            11 => self.next(),
            12 => self.prev(),
            13 | 14 => self.reopen(random),
            _ => self.play(random),
        }
    }
}

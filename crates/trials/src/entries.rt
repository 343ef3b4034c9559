// Calls at random on a map or a set, each held against the table, which has 1 at the places of a set's keys: what is
// right, what is counted, and what the table has after it. Map and set have functions of their own, for their calls
// take and answer different things.
use crate::lists::{self, List, Span};
use crate::trial::{Kind, Trial};
use map::refusal::Refusal;
use map::{Got, Seen};
use model::LEVELS;
use table::random::Random;
use table::{key_of, word_at};

impl Trial<'_, '_> {
    // ---- insert, replace, remove

    fn insert(&mut self, place: usize, value: u64) {
        match map::insert(self.pool, key_of(place), value) {
            Ok(before) => {
                let had = self.table.insert(place, value);
                self.tally.hold(before == had);
                self.tally.store(had);
            }
            Err(why) => self.refuse(place, why),
        }
    }

    fn set_insert(&mut self, place: usize) {
        match map::set::insert(self.pool, key_of(place)) {
            Ok(new) => {
                let had = self.table.insert(place, 1);
                self.tally.hold(new == had.is_none());
                self.tally.store(had);
            }
            Err(why) => self.refuse(place, why),
        }
    }

    // Only a new key is refused, and for no reason but that there is no room.
    fn refuse(&mut self, place: usize, why: Refusal) {
        let is_new = self.table.get(place).is_none();
        self.tally.hold(is_new && why == Refusal::NoRoom);
        self.tally.full += 1;
    }

    fn replace(&mut self, place: usize, value: u64) {
        let before = map::replace(self.pool, key_of(place), value);
        let had = self.table.get(place);
        self.tally.hold(before == Ok(had));
        match had {
            Some(_) => {
                self.table.insert(place, value);
                self.tally.over += 1;
            }
            None => self.tally.absent += 1,
        }
    }

    fn remove(&mut self, place: usize) {
        let value = map::remove(self.pool, key_of(place));
        let had = self.table.remove(place);
        self.tally.hold(value == Ok(had));
        self.tally.strike(had);
    }

    fn set_remove(&mut self, place: usize) {
        let there = map::set::remove(self.pool, key_of(place));
        let had = self.table.remove(place);
        self.tally.hold(there == Ok(had.is_some()));
        self.tally.strike(had);
    }

    // ---- get and contains

    // A search reads 1 to all levels for a key that is there, and else a page of every level.
    fn search(&mut self, is_there: bool, right: bool, read: usize) {
        let levels = word_at(self.pool, LEVELS) as usize;
        let pages = if is_there {
            (1..=levels).contains(&read)
        } else {
            read == levels
        };
        self.tally.hold(right && pages);
        self.tally.read += read as u64;
    }

    fn got(&mut self, had: Option<u64>, answer: Result<Got, Refusal>) {
        match answer {
            Ok(got) => self.search(had.is_some(), got.value == had, got.read),
            Err(_) => self.tally.hold(false),
        }
    }

    fn seen(&mut self, is_there: bool, answer: Result<Seen, Refusal>) {
        match answer {
            Ok(seen) => self.search(is_there, seen.present == is_there, seen.read),
            Err(_) => self.tally.hold(false),
        }
    }

    fn search_map(&mut self, place: usize) {
        let key = key_of(place);
        let had = self.table.get(place);
        let got = map::get(self.pool, key);
        self.got(had, got);
        let seen = map::contains(self.pool, key);
        self.seen(had.is_some(), seen);
    }

    // A set's get answers the key.
    fn search_set(&mut self, place: usize) {
        let key = key_of(place);
        let had = self.table.get(place).map(|_| key);
        let got = map::set::get(self.pool, key);
        self.got(had, got);
        let seen = map::set::contains(self.pool, key);
        self.seen(had.is_some(), seen);
    }

    // ---- lists

    fn listed(&self, list: List, span: Span, random: Random) -> Option<usize> {
        lists::some(self.pool, list, span, &self.table, random)
    }

    fn list(&mut self, list: List, span: Span, random: Random) {
        let listed = self.listed(list, span, random);
        self.tally.list(listed);
    }

    fn list_map(&mut self, random: Random) {
        let span = Span::drawn(random, self.table.places());
        let other = random.next().next();
        self.list(List::Entries, span, other);
        self.list(List::Keys, span, other);
        self.list(List::Values, span, other.next());
    }

    fn list_set(&mut self, random: Random) {
        let span = Span::drawn(random, self.table.places());
        self.list(List::SetKeys, span, random.next().next());
    }

    // ---- at random

    // `filed` of 16 are insertions, then removals, and the last three a replacement, get and contains, and lists.
    fn call_map(&mut self, random: Random, filed: u64) {
        let place = random.below(self.table.places());
        let what = random.sixteenth();
        if what < filed {
            self.insert(place, random.value());
            return;
        }
        match what {
            13 => self.replace(place, random.value()),
            14 => self.search_map(place),
            15 => self.list_map(random.next()),
            _ => self.remove(place),
        }
    }

    // Of a set the last two are get and contains, and a list.
    fn call_set(&mut self, random: Random, filed: u64) {
        let place = random.below(self.table.places());
        let what = random.sixteenth();
        if what < filed {
            self.set_insert(place);
            return;
        }
        match what {
            14 => self.search_set(place),
            15 => self.list_set(random.next()),
            _ => self.set_remove(place),
        }
    }

    pub fn call_at_random(&mut self, random: Random, filed: u64) {
        if self.plan.kind == Kind::Set {
            self.call_set(random, filed);
        } else {
            self.call_map(random, filed);
        }
    }
}

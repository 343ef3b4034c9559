// A trial: so many calls at random on a pool of a kind, or on a map's cursor, each held against the table; on the way
// the pool is checked, counted and listed, and copied, and the copy listed.
use crate::lists::{self, List};
use crate::tally::Tally;
use map::refusal::{MAP, SET};
use model::{COUNT, LEVELS};
use std::ops::Bound;
use std::{fmt, io};
use table::random::Random;
use table::values::Lent;
use table::{PLACES, Table, UNTOUCHED, word_at};

// Words of the longest pool of the trials.
pub const WORDS: usize = 8192;

// What the calls are made on.
#[derive(Clone, Copy, PartialEq, Eq)]
pub enum Kind {
    Map,
    Set,
    Cursor,
}

impl fmt::Display for Kind {
    fn fmt<W: fmt::Write>(&self, f: &mut fmt::Formatter<W>) -> fmt::Result {
        f.write_str(match self {
            Kind::Map | Kind::Cursor => "map",
            Kind::Set => "set",
        })
    }
}

// A trial of so many calls, of a cursor three times as many, on a pool of so many words, with keys at so many places.
#[derive(Clone, Copy)]
pub struct Plan {
    pub kind: Kind,
    pub words: usize,
    pub calls: u64,
    pub places: usize,
}

impl Plan {
    // A cursor's trial has three parts, each from the start on.
    fn parts(self) -> u64 {
        if self.kind == Kind::Cursor { 3 } else { 1 }
    }

    fn list(self) -> List {
        if self.kind == Kind::Set {
            List::SetKeys
        } else {
            List::Entries
        }
    }

    // How many of 16 calls are insertions. Of a cursor's parts the second has mostly removals, and on a pool every
    // other 2000 calls.
    fn filed(self, part: u64, i: u64) -> u64 {
        if self.kind == Kind::Cursor {
            if part == 1 { 3 } else { 8 }
        } else if (i / 2000) % 2 == 0 {
            10
        } else {
            5
        }
    }
}

// A trial on the way: the cursor's gap is a place of the table, and the entries below it come before it.
#[derive(Drop)]
pub struct Trial<'a, 'b> {
    pub plan: Plan,
    pub pool: &'a mut [u64],
    pub table: Table<Lent<'b>>,
    pub gap: usize,
    pub tally: Tally,
}

// ---- the pool

// Whether a pool says that it is sound and holds the table's entries.
fn stands(pool: &[u64], table: &Table<Lent<'_>>) -> bool {
    let n = table.count() as u64;
    map::pool::check(pool)
        && map::pool::is_empty(pool) == Ok(n == 0)
        && map::pool::count(pool) == Ok(n)
}

impl Trial<'_, '_> {
    fn stands(&self) -> bool {
        stands(self.pool, &self.table)
    }

    fn look(&mut self) {
        let stands = self.stands();
        self.tally.hold(stands);
    }

    fn whole(&self) -> Option<usize> {
        lists::whole(self.pool, self.plan.list(), &self.table)
    }

    // And its whole list is the table's.
    fn look_whole(&mut self) {
        self.look();
        let listed = self.whole();
        self.tally.list(listed);
    }

    // A copy over other words is sound and has the same list; cleared, it holds nothing and lists nothing.
    fn look_copied(&mut self) {
        let mut words = [UNTOUCHED; WORDS];
        match words.get_mut(..self.pool.len()) {
            Some(copy) => self.look_copied_to(copy),
            None => self.tally.hold(false),
        }
    }

    fn look_copied_to(&mut self, copy: &mut [u64]) {
        let list = self.plan.list();
        let copied = map::pool::copy(self.pool, copy);
        self.tally.hold(copied == Ok(()));
        self.tally.hold(stands(copy, &self.table));
        self.tally.list(lists::whole(copy, list, &self.table));
        let none = Table::lent(&mut []);
        self.tally.hold(map::pool::clear(copy) == Ok(()));
        self.tally.hold(stands(copy, &none));
        self.tally.list(lists::whole(copy, list, &none));
    }

    // ---- calls

    // After call i: of a cursor the peeks and, every 256th time, the pool and its whole list; of a pool every 32nd time
    // whether it stands, every 128th a copy and its whole list.
    fn look_after(&mut self, i: u64) {
        if self.plan.kind == Kind::Cursor {
            self.look_beside();
            if i % 256 == 255 {
                self.look_whole();
            }
        } else if i % 32 == 0 {
            self.look();
            if i % 128 == 0 {
                self.look_copied();
            }
        }
    }

    // The calls of a part; before a cursor's first call it is closed, and opened at the start.
    fn run_part(&mut self, part: u64) {
        let mut random = Random::first(part);
        if self.plan.kind == Kind::Cursor {
            self.close();
            self.open_lower(Bound::Unbounded);
        }
        for at in 0..self.plan.calls {
            let i = part.wrapping_mul(self.plan.calls).wrapping_add(at);
            let filed = self.plan.filed(part, i);
            if self.plan.kind == Kind::Cursor {
                self.move_at_random(random, filed);
            } else {
                self.call_at_random(random, filed);
            }
            self.look_after(i);
            random = random.next();
        }
    }

    // A pool made in words that held something else; after the last call a cursor is closed.
    fn run(&mut self) {
        let kind = if self.plan.kind == Kind::Set {
            SET
        } else {
            MAP
        };
        let made = map::pool::make(self.pool, kind);
        self.tally.hold(made == Ok(()));
        self.look();
        for part in 0..self.plan.parts() {
            self.run_part(part);
        }
        if self.plan.kind == Kind::Cursor {
            self.close();
            self.look_whole();
        }
    }

    // ---- the line that it prints

    fn report(&self, rt: &impl Print) -> io::Result<()> {
        let tally = &self.tally;
        let kind = self.plan.kind;
        let calls = self.plan.calls;
        print!(rt; "{kind} on pages {}: ", word_at(self.pool, 1))?;
        if kind == Kind::Cursor {
            print!(rt;
                "three times calls {calls}, inserted {}, removed {}, refused with 6 {}, with 7 {}",
                tally.new.0, tally.struck.0, tally.misplaced.0, tally.full.0
            )?;
        } else {
            print!(rt;
                "calls {calls}, new {}, over {}, refused for room {}, removed {}, absent {}, \
                 pages read {}, listed {}",
                tally.new.0,
                tally.over.0,
                tally.full.0,
                tally.struck.0,
                tally.absent.0,
                tally.read.0,
                tally.listed.0
            )?;
        }
        let left = word_at(self.pool, COUNT);
        let levels = word_at(self.pool, LEVELS);
        println!(rt; ", left {left} on levels {levels}, wrong {}", tally.wrong.0)
    }
}

// A trial in the first of some words.
pub fn run(rt: &impl Print, words: &mut [u64], plan: Plan) -> io::Result<()> {
    let mut values = [0; PLACES];
    let (Some(pool), Some(values)) = (words.get_mut(..plan.words), values.get_mut(..plan.places))
    else {
        return Ok(());
    };
    let mut trial = Trial {
        plan,
        pool,
        table: Table::lent(values),
        gap: 0,
        tally: Tally::default(),
    };
    trial.run();
    trial.report(rt)
}

// The table: for each section, each call's name, how many were replayed and how many answers differ; and over all
// sections, with the pool's checks.
use crate::text::word;
use std::io;
use std::num::Wrapping;

// Names that a section has rows for; calls by further ones are in the last line alone.
const MOST: usize = 32;

// How many calls were replayed, and how many answers differ.
#[derive(Clone, Copy, Default)]
struct Figures {
    calls: Wrapping<u64>,
    differ: Wrapping<u64>,
}

impl Figures {
    fn count(&mut self, right: bool) {
        self.calls += 1;
        if !right {
            self.differ += 1;
        }
    }
}

// Those of a call's name, as it stands in the list. A row that counts no call yet is no name's.
#[derive(Clone, Copy, Default)]
struct Row<'a> {
    name: &'a [u8],
    figures: Figures,
}

impl Row<'_> {
    fn is_free(&self) -> bool {
        self.figures.calls.0 == 0
    }

    // Whether this is the word of its name. Nothing is looked at past the word, for names may be long.
    fn has(&self, word: &[u8]) -> bool {
        self.name
            .strip_prefix(word)
            .is_some_and(|rest| matches!(rest.first(), None | Some(0)))
    }

    // No `Display`: a name is bytes as they stand in the list, which need not be text.
    fn write(self, rt: &impl Print) -> io::Result<()> {
        rt.write_all(b"  ")?;
        rt.write_all(self.name)?;
        let figures = self.figures;
        println!(rt; " {}, differ {}", figures.calls.0, figures.differ.0)
    }
}

// The rows are an array and no `Vec`, the free ones last: counting can't want memory.
#[derive(Clone, Copy)]
pub struct Tally<'a> {
    rows: [Row<'a>; MOST],
    all: Figures,
    checks: Wrapping<u64>,
    unsound: Wrapping<u64>,
}

impl<'a> Tally<'a> {
    pub fn new() -> Tally<'a> {
        Tally {
            rows: [Row::default(); MOST],
            all: Figures::default(),
            checks: Wrapping(0),
            unsound: Wrapping(0),
        }
    }

    // An answer that is std's, or isn't.
    pub fn count(&mut self, name: &'a [u8], right: bool) {
        self.all.count(right);
        let word = word(name);
        let found = self
            .rows
            .iter_mut()
            .find(|row| row.is_free() || row.has(word));
        if let Some(row) = found {
            row.name = name;
            row.figures.count(right);
        }
    }

    // After every 64th call: whether the pool is sound.
    pub fn look(&mut self, pool: &[u64]) {
        if self.all.calls.0 % 64 != 0 {
            return;
        }
        self.checks += 1;
        if !map::pool::check(pool) {
            self.unsound += 1;
        }
    }

    // A section is over: its rows, which are then gone.
    pub fn end_section(&mut self, rt: &impl Print) -> io::Result<()> {
        for row in self.rows.iter().filter(|row| !row.is_free()) {
            row.write(rt)?;
        }
        self.rows = [Row::default(); MOST];
        Ok(())
    }

    pub fn report(&self, rt: &impl Print) -> io::Result<()> {
        println!(rt;
            "all calls {}, differ {}; checks {}, unsound {}",
            self.all.calls.0, self.all.differ.0, self.checks.0, self.unsound.0
        )
    }
}

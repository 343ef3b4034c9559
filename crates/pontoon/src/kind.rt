// The two kinds of pool: as the command line names them, and by the numbers that a pool's head and the library's calls
// have for them.
use map::refusal::{MAP, SET};
use model::KIND;
use std::fmt;
use table::word_at;

#[derive(Clone, Copy, Debug, PartialEq, Eq)]
pub enum Kind {
    Map,
    Set,
}

impl Kind {
    // The kind of a pool. What is neither by its head is no pool, and goes for a map, whose calls refuse it.
    pub fn of(pool: &[u64]) -> Kind {
        if word_at(pool, KIND) == SET {
            Kind::Set
        } else {
            Kind::Map
        }
    }
}

// Its number, as the library's calls take it.
impl From<Kind> for u64 {
    fn from(kind: Kind) -> u64 {
        match kind {
            Kind::Map => MAP,
            Kind::Set => SET,
        }
    }
}

impl fmt::Display for Kind {
    fn fmt<W: fmt::Write>(&self, f: &mut fmt::Formatter<W>) -> fmt::Result {
        f.write_str(match self {
            Kind::Map => "map",
            Kind::Set => "set",
        })
    }
}

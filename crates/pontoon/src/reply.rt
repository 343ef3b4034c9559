// What a command comes to, and the line that says it; and what ends a command before it comes to one. By its reply a
// command makes a new file, replaces the one that is there, or leaves it.
use crate::kind::Kind;
use map::refusal;
use map::refusal::Refusal;
use page::Entry;
use std::{fmt, io};

#[derive(Clone, Copy)]
pub enum Reply {
    // All is said already.
    Told,
    // One of them, and no `Result` around the others: it is printed as they are, on standard output.
    Refused(Refusal),
    Made(Kind, u64),
    Copied,
    Cleared,
    New,
    // The place that a tick had.
    Before(u64),
    Removed,
    RemovedPlace(u64),
    RemovedEntry(Entry),
    // With how many pages were read.
    Opened(usize),
    Closed,
    // The entry that the gap went over.
    Passed(Entry),
    Seen(Entry),
    // A tick that a set has, and one that a pool has not.
    There,
    Absent,
    // The same of a get, and a tick's place, with how many pages were read.
    Place(u64, usize),
    Present(usize),
    Missing(usize),
    End,
    Start,
    Listed(usize),
    Sound,
    NotSound,
}

impl Reply {
    // Whether the pool is new, and goes into a new file.
    pub fn is_new(self) -> bool {
        matches!(self, Reply::Made(..) | Reply::Copied)
    }

    // Whether a word of the pool may be another.
    pub fn is_change(self) -> bool {
        matches!(
            self,
            Reply::Cleared
                | Reply::New
                | Reply::Before(_)
                | Reply::Removed
                | Reply::RemovedPlace(_)
                | Reply::RemovedEntry(_)
                | Reply::Opened(_)
                | Reply::Closed
                | Reply::Passed(_)
        )
    }

    pub fn tell(self, rt: &impl Print) -> io::Result<()> {
        match self {
            Reply::Told => Ok(()),
            _ => rt.println(self),
        }
    }
}

// What ends a command before its reply: a refusal, or standard output that takes nothing more.
#[derive(Debug, Drop)]
pub enum Stop {
    Refused(Refusal),
    Unwritten(io::Error),
}

impl From<Refusal> for Stop {
    fn from(why: Refusal) -> Stop {
        Stop::Refused(why)
    }
}

impl From<io::Error> for Stop {
    fn from(error: io::Error) -> Stop {
        Stop::Unwritten(error)
    }
}

// ---- texts

// What is written after a word for things that are so many.
pub fn plural(n: u64) -> &'static str {
    if n == 1 { "" } else { "s" }
}

// An entry of a map as text.
#[derive(Clone, Copy)]
pub struct Line(pub Entry);

impl fmt::Display for Line {
    fn fmt<W: fmt::Write>(&self, f: &mut fmt::Formatter<W>) -> fmt::Result {
        write!(f, "tick {}, place {}", self.0.key, self.0.value)
    }
}

// Why a call refused, in the command's words; the library has only the number.
fn reason(why: Refusal) -> &'static str {
    match why {
        Refusal::Unfit => "no pool, by its length or its head",
        Refusal::OtherKind => {
            "not for this kind of pool: a map has places and a cursor, a set has neither"
        }
        Refusal::BadBound => "no such kind of bound",
        Refusal::Opened => "the cursor is open",
        Refusal::Closed => "the cursor is closed",
        Refusal::Misplaced => "the tick is not strictly between its neighbours",
        Refusal::NoRoom => "no free page for a new tick",
        Refusal::Lengths => "the two pools have different lengths",
        Refusal::Unsound => "the pool is not sound",
    }
}

// So many pages, of one without the s.
#[derive(Clone, Copy)]
struct Pages(u64);

impl fmt::Display for Pages {
    fn fmt<W: fmt::Write>(&self, f: &mut fmt::Formatter<W>) -> fmt::Result {
        let n = self.0;
        let s = plural(n);
        write!(f, "{n} page{s}")
    }
}

impl fmt::Display for Reply {
    fn fmt<W: fmt::Write>(&self, f: &mut fmt::Formatter<W>) -> fmt::Result {
        match *self {
            Reply::Told => Ok(()),
            Reply::Refused(why) => {
                write!(f, "refused ({}): {}", refusal::number(why), reason(why))
            }
            Reply::Made(kind, pages) => write!(f, "a new {kind} of {}", Pages(pages)),
            Reply::Copied => f.write_str("copied"),
            Reply::Cleared => f.write_str("cleared"),
            Reply::New => f.write_str("new"),
            Reply::Before(place) => write!(f, "before: {place}"),
            Reply::Removed => f.write_str("removed"),
            Reply::RemovedPlace(place) => write!(f, "removed: place {place}"),
            Reply::RemovedEntry(entry) => write!(f, "removed: {}", Line(entry)),
            Reply::Opened(read) => write!(f, "open, {} read", Pages(read as u64)),
            Reply::Closed => f.write_str("closed"),
            Reply::Passed(entry) | Reply::Seen(entry) => write!(f, "{}", Line(entry)),
            Reply::There => f.write_str("there already"),
            Reply::Absent => f.write_str("absent"),
            Reply::Place(place, read) => write!(f, "place {place}, {} read", Pages(read as u64)),
            Reply::Present(read) => write!(f, "present, {} read", Pages(read as u64)),
            Reply::Missing(read) => write!(f, "absent, {} read", Pages(read as u64)),
            Reply::End => f.write_str("the end"),
            Reply::Start => f.write_str("the start"),
            Reply::Listed(0) => f.write_str("no entries"),
            Reply::Listed(1) => f.write_str("1 entry"),
            Reply::Listed(n) => write!(f, "{n} entries"),
            Reply::Sound => f.write_str("sound"),
            Reply::NotSound => f.write_str("not sound"),
        }
    }
}

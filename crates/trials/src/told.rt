// What a call of a script answers, in one form for all calls. It is printed in words, or by document 01's number, 1 to
// 9 where the call is refused and else 0.
use map::refusal::{self, Refusal};
use map::{Got, Seen};
use page::Entry;
use std::fmt;

#[derive(Clone, Copy)]
pub enum Told {
    Done,
    // The value that the key had: it was written over, put in place of it, or removed.
    Inserted(Option<u64>),
    Replaced(Option<u64>),
    Removed(Option<u64>),
    Got(Got),
    // Of a set: whether the key is new, whether it was there, and itself.
    SetInserted(bool),
    SetRemoved(bool),
    SetGot(Got),
    // Of either kind.
    Seen(Seen),
    Empty(bool),
    Sound(bool),
    // The entries that a list wrote, and the pages that opening read.
    Listed(usize),
    Opened(usize),
    Stepped(Option<Entry>),
    // The value that the entry beside the gap had.
    Overwrote(Option<u64>),
    // How many there are, or a word of the pool.
    Is(u64),
    // A page of a pool.
    Free(usize),
    // One of them, and no `Result` around the others: it is printed as they are.
    Refused(Refusal),
}

impl Told {
    // By its number.
    pub fn number(self) -> u64 {
        match self {
            Told::Refused(why) => refusal::number(why),
            _ => 0,
        }
    }

    // With the pages that get read.
    pub fn in_full(self) -> InFull {
        InFull(self)
    }
}

fn yes(yes: bool) -> &'static str {
    if yes { "yes" } else { "no" }
}

impl fmt::Display for Told {
    fn fmt<W: fmt::Write>(&self, f: &mut fmt::Formatter<W>) -> fmt::Result {
        match *self {
            Told::Done => f.write_str("done"),
            Told::Inserted(None) | Told::SetInserted(true) => f.write_str("new"),
            Told::SetInserted(false) | Told::SetRemoved(true) => f.write_str("yes"),
            Told::Replaced(None) | Told::Removed(None) | Told::SetRemoved(false) => {
                f.write_str("absent")
            }
            Told::Inserted(Some(value))
            | Told::Replaced(Some(value))
            | Told::Removed(Some(value))
            | Told::Overwrote(Some(value)) => write!(f, "was {value}"),
            Told::Got(got) | Told::SetGot(got) => match got.value {
                Some(value) => write!(f, "{value}"),
                None => f.write_str("absent"),
            },
            Told::Seen(seen) => f.write_str(yes(seen.present)),
            Told::Empty(empty) => f.write_str(yes(empty)),
            Told::Sound(true) => f.write_str("sound"),
            Told::Sound(false) => f.write_str("unsound"),
            Told::Listed(entries) => write!(f, "wrote {entries}"),
            Told::Opened(pages) => write!(f, "read {pages}"),
            Told::Stepped(Some(Entry { key, value })) => write!(f, "{key}:{value}"),
            Told::Stepped(None) | Told::Overwrote(None) => f.write_str("end"),
            Told::Is(n) => write!(f, "{n}"),
            Told::Free(page) => write!(f, "page {page} free"),
            Told::Refused(why) => write!(f, "refused {}", refusal::number(why)),
        }
    }
}

#[derive(Clone, Copy)]
pub struct InFull(Told);

impl fmt::Display for InFull {
    fn fmt<W: fmt::Write>(&self, f: &mut fmt::Formatter<W>) -> fmt::Result {
        let told = self.0;
        match told {
            Told::Got(Got { value: None, read }) | Told::SetGot(Got { value: None, read }) => {
                write!(f, "absent in pages {read}")
            }
            Told::Got(got) => write!(f, "value {told} in pages {}", got.read),
            _ => write!(f, "{told}"),
        }
    }
}

// The commands: how each is written, once, a line for each, by whose first word it is known; and how many words go
// with it.
use std::io;
use std::ops::RangeInclusive;

const USAGE: &str = "
 sample                         a tour, on pools in memory
 make FILE PAGES [map|set]      a new pool of 1 to 4096 pages in a new file; a map where it is not said
 copy FILE TO                   the pool into a new file, its cursor closed
 clear FILE                     no entries any more
 check FILE                     says: sound, or: not sound
 show FILE                      the tree as a picture, a line a page
 stats FILE                     kind, entries, levels, pages, fill, room, cursor
 insert FILE TICK [PLACE]       a tick's place, over the one that it had; a set takes no place
 get FILE TICK                  its place, and the pages read
 replace FILE TICK PLACE        another place for a tick that is there
 remove FILE TICK               the tick and its place go
 list FILE [FROM [TO]]          the entries from tick FROM on, before tick TO; a - leaves that end open
 open FILE WHERE                a map's cursor, which stays open in the file. WHERE: start, end, or lower|upper included|excluded TICK
 next FILE                      the entry after the gap, which goes over it
 prev FILE                      the entry before the gap, which goes back over it
 peek-next FILE                 the entry after the gap, which stays
 peek-prev FILE                 the entry before the gap, which stays
 write-next FILE PLACE          another place for the entry after the gap
 write-prev FILE PLACE          another place for the entry before the gap
 insert-after FILE TICK PLACE   a new entry just after the gap
 remove-next FILE               the entry after the gap goes
 close FILE                     the cursor; then the map can be changed again
 scrub FILE TICK STEPS          from TICK on, so many steps; the file is not changed";

const ABOUT: &str = "

A pool in a file: a map from clock tick to frame place, or a set of ticks. A tick is a key, a place is its value; both are numbers
from 0 to 18446744073709551615. What a command answers goes to standard output, a refusal and its number too; what cannot be
carried out goes to standard error. The exit status is 0 in any case. To see it all at work: pontoon sample
";

// The commands, by their first word.
#[derive(Clone, Copy, Debug, PartialEq, Eq)]
pub enum Verb {
    Sample,
    Make,
    Copy,
    Clear,
    Check,
    Show,
    Stats,
    Insert,
    Get,
    Replace,
    Remove,
    List,
    Open,
    Next,
    Prev,
    PeekNext,
    PeekPrev,
    WriteNext,
    WritePrev,
    InsertAfter,
    RemoveNext,
    Close,
    Scrub,
}

impl Verb {
    // No `TryFrom`: there is one way to be none, and the caller complains of the word.
    pub fn of(name: &[u8]) -> Option<Verb> {
        Some(match name {
            b"sample" => Verb::Sample,
            b"make" => Verb::Make,
            b"copy" => Verb::Copy,
            b"clear" => Verb::Clear,
            b"check" => Verb::Check,
            b"show" => Verb::Show,
            b"stats" => Verb::Stats,
            b"insert" => Verb::Insert,
            b"get" => Verb::Get,
            b"replace" => Verb::Replace,
            b"remove" => Verb::Remove,
            b"list" => Verb::List,
            b"open" => Verb::Open,
            b"next" => Verb::Next,
            b"prev" => Verb::Prev,
            b"peek-next" => Verb::PeekNext,
            b"peek-prev" => Verb::PeekPrev,
            b"write-next" => Verb::WriteNext,
            b"write-prev" => Verb::WritePrev,
            b"insert-after" => Verb::InsertAfter,
            b"remove-next" => Verb::RemoveNext,
            b"close" => Verb::Close,
            b"scrub" => Verb::Scrub,
            _ => return None,
        })
    }

    // How many words a command has, its own among them.
    pub fn words(self) -> RangeInclusive<usize> {
        match self {
            Verb::Sample => 1..=1,
            Verb::Make | Verb::Insert => 3..=4,
            Verb::Copy | Verb::Get | Verb::Remove | Verb::WriteNext | Verb::WritePrev => 3..=3,
            Verb::Replace | Verb::InsertAfter | Verb::Scrub => 4..=4,
            Verb::List => 2..=4,
            Verb::Open => 3..=5,
            Verb::Clear
            | Verb::Check
            | Verb::Show
            | Verb::Stats
            | Verb::Next
            | Verb::Prev
            | Verb::PeekNext
            | Verb::PeekPrev
            | Verb::RemoveNext
            | Verb::Close => 2..=2,
        }
    }
}

// Whether a line of the usage is that of a command.
fn is_of(line: &str, name: &[u8]) -> bool {
    line.split(' ')
        .nth(1)
        .is_some_and(|word| word.as_bytes() == name)
}

// How a command is written.
pub fn print(out: &impl Print, name: &[u8]) -> io::Result<()> {
    let line = USAGE
        .lines()
        .find(|line| is_of(line, name))
        .unwrap_or_default();
    println!(out; "usage: pontoon{line}")
}

// How all are.
pub fn help(rt: &impl Print) -> io::Result<()> {
    print!(rt; "usage: pontoon{USAGE}{ABOUT}")
}

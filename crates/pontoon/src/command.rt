// A command by what it asks: its words taken apart once, its numbers read. A tick is a key and a place is a value.
// Words that are no command come to what is wrong with which of them.
use crate::kind::Kind;
use crate::size::Size;
use crate::usage::Verb;
use crate::words::Words;
use page::Entry;
use std::error::Error;
use std::fmt;
use std::ops::Bound;

// What the words ask, of the pool in the file that word 1 names where they name one.
#[derive(Clone, Copy)]
pub enum Command<'a> {
    // Of no words at all.
    Help,
    Sample,
    Make { size: Size, kind: Kind },
    // To a file of a name.
    Copy(&'a [u8]),
    Clear,
    Check,
    Show,
    Stats,
    // Into a set without a place.
    Insert { tick: u64, place: Option<u64> },
    // Of a tick, which is the entry's key.
    Get(u64),
    Replace(Entry),
    Remove(u64),
    List { from: Bound<u64>, to: Bound<u64> },
    Open(Gap),
    Next,
    Prev,
    PeekNext,
    PeekPrev,
    // A place, which is the entry's value.
    WriteNext(u64),
    WritePrev(u64),
    InsertAfter(Entry),
    RemoveNext,
    Close,
    Scrub { tick: u64, steps: u64 },
}

// Where a cursor is opened: at a lower bound, unbounded at the start, or at an upper bound, unbounded at the end.
#[derive(Clone, Copy)]
pub enum Gap {
    Lower(Bound<u64>),
    Upper(Bound<u64>),
}

// A bound as the library's calls take it, by its kind's number and its key.
pub fn by_number(bound: Bound<u64>) -> map::bound::Bound {
    let (kind, key) = match bound {
        Bound::Included(tick) => (0, tick),
        Bound::Excluded(tick) => (1, tick),
        Bound::Unbounded => (2, 0),
    };
    map::bound::Bound { kind, key }
}

// What is wrong with a word.
#[derive(Clone, Copy, Debug, PartialEq, Eq)]
pub enum Wrong {
    NotKnown,
    TooFew,
    TooMany,
    NotANumber,
    NotPages,
    NotAKind,
    NotWhere,
    NotABound,
}

impl fmt::Display for Wrong {
    fn fmt<W: fmt::Write>(&self, f: &mut fmt::Formatter<W>) -> fmt::Result {
        f.write_str(match self {
            Wrong::NotKnown => "is no command; pontoon alone lists them",
            Wrong::TooFew => "has too few words after it",
            Wrong::TooMany => "has too many words after it",
            Wrong::NotANumber => "is no number from 0 to 18446744073709551615",
            Wrong::NotPages => "is no number of pages: from 1 to 4096",
            Wrong::NotAKind => "is neither map nor set",
            Wrong::NotWhere => {
                "does not say where: start, end, or lower|upper included|excluded TICK"
            }
            Wrong::NotABound => "is neither included nor excluded",
        })
    }
}

impl Error for Wrong {}

// A word with which something is wrong.
#[derive(Clone, Copy, Debug, PartialEq, Eq)]
pub struct BadWord<'a> {
    pub word: &'a [u8],
    pub wrong: Wrong,
}

// ---- words

fn bad(words: Words<'_>, i: usize, wrong: Wrong) -> BadWord<'_> {
    BadWord {
        word: words.word(i),
        wrong,
    }
}

// The number that word `i` has to be.
fn number(words: Words<'_>, i: usize) -> Result<u64, BadWord<'_>> {
    table::number(words.word(i)).ok_or(bad(words, i, Wrong::NotANumber))
}

// The number that word `i` has to be, where it is given.
fn number_if_any(words: Words<'_>, i: usize) -> Result<Option<u64>, BadWord<'_>> {
    if words.get(i).is_none() {
        return Ok(None);
    }
    Ok(Some(number(words, i)?))
}

// The tick of a list's bound: none for a dash or no word.
fn end(words: Words<'_>, i: usize) -> Result<Option<u64>, BadWord<'_>> {
    if words.get(i) == Some(b"-") {
        return Ok(None);
    }
    number_if_any(words, i)
}

// The tick and the place that words 2 and 3 have to be.
fn entry(words: Words<'_>) -> Result<Entry, BadWord<'_>> {
    Ok(Entry {
        key: number(words, 2)?,
        value: number(words, 3)?,
    })
}

// ---- the commands that have words besides numbers

fn make(words: Words<'_>) -> Result<Command<'_>, BadWord<'_>> {
    let size = Size::of(number(words, 2)?).ok_or(bad(words, 2, Wrong::NotPages))?;
    let kind = match words.get(3) {
        None | Some(b"map") => Kind::Map,
        Some(b"set") => Kind::Set,
        Some(_) => return Err(bad(words, 3, Wrong::NotAKind)),
    };
    Ok(Command::Make { size, kind })
}

// The bound of a tick, by the last two of five words.
fn bound(words: Words<'_>) -> Result<Bound<u64>, BadWord<'_>> {
    match words.word(3) {
        b"included" => Ok(Bound::Included(number(words, 4)?)),
        b"excluded" => Ok(Bound::Excluded(number(words, 4)?)),
        _ => Err(bad(words, 3, Wrong::NotABound)),
    }
}

fn open(words: Words<'_>) -> Result<Gap, BadWord<'_>> {
    let at = match words.count() {
        3 => None,
        5 => Some(bound(words)?),
        _ => return Err(bad(words, 0, Wrong::TooFew)),
    };
    match (words.word(2), at) {
        (b"start", None) => Ok(Gap::Lower(Bound::Unbounded)),
        (b"end", None) => Ok(Gap::Upper(Bound::Unbounded)),
        (b"lower", Some(at)) => Ok(Gap::Lower(at)),
        (b"upper", Some(at)) => Ok(Gap::Upper(at)),
        _ => Err(bad(words, 2, Wrong::NotWhere)),
    }
}

// ---- all

// By the verb, where there are as many words as go with it.
fn told(verb: Verb, words: Words<'_>) -> Result<Command<'_>, BadWord<'_>> {
    Ok(match verb {
        Verb::Sample => Command::Sample,
        Verb::Make => make(words)?,
        Verb::Copy => Command::Copy(words.word(2)),
        Verb::Clear => Command::Clear,
        Verb::Check => Command::Check,
        Verb::Show => Command::Show,
        Verb::Stats => Command::Stats,
        Verb::Insert => Command::Insert {
            tick: number(words, 2)?,
            place: number_if_any(words, 3)?,
        },
        Verb::Get => Command::Get(number(words, 2)?),
        Verb::Replace => Command::Replace(entry(words)?),
        Verb::Remove => Command::Remove(number(words, 2)?),
        Verb::List => Command::List {
            from: end(words, 2)?.map_or(Bound::Unbounded, Bound::Included),
            to: end(words, 3)?.map_or(Bound::Unbounded, Bound::Excluded),
        },
        Verb::Open => Command::Open(open(words)?),
        Verb::Next => Command::Next,
        Verb::Prev => Command::Prev,
        Verb::PeekNext => Command::PeekNext,
        Verb::PeekPrev => Command::PeekPrev,
        Verb::WriteNext => Command::WriteNext(number(words, 2)?),
        Verb::WritePrev => Command::WritePrev(number(words, 2)?),
        Verb::InsertAfter => Command::InsertAfter(entry(words)?),
        Verb::RemoveNext => Command::RemoveNext,
        Verb::Close => Command::Close,
        Verb::Scrub => Command::Scrub {
            tick: number(words, 2)?,
            steps: number(words, 3)?,
        },
    })
}

pub fn parse(words: Words<'_>) -> Result<Command<'_>, BadWord<'_>> {
    let Some(name) = words.get(0) else {
        return Ok(Command::Help);
    };
    let Some(verb) = Verb::of(name) else {
        return Err(bad(words, 0, Wrong::NotKnown));
    };
    let wanted = verb.words();
    if words.count() < *wanted.start() {
        return Err(bad(words, 0, Wrong::TooFew));
    }
    if words.count() > *wanted.end() {
        return Err(bad(words, 0, Wrong::TooMany));
    }
    told(verb, words)
}

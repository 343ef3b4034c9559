// A command on a pool in memory: the same for a pool that a file keeps and for the sample's. What takes a map and a
// set goes by the pool's kind. A refused call has changed no word.
use crate::command::{Command, Gap, by_number};
use crate::kind::Kind;
use crate::look::PAGES;
use crate::reply::{Reply, Stop};
use crate::{look, show, stats};
use cursor::{edit, opening};
use map::refusal::Refusal;
use std::io;
use table::word_at;

// A new pool, of as many pages as there are words for.
fn make(pool: &mut [u64], kind: Kind) -> Result<Reply, Refusal> {
    map::pool::make(pool, kind.into())?;
    Ok(Reply::Made(kind, word_at(pool, PAGES)))
}

// A place is for a map; a set is given none.
fn insert(pool: &mut [u64], tick: u64, place: Option<u64>) -> Result<Reply, Refusal> {
    if let Some(place) = place {
        return Ok(map::insert(pool, tick, place)?.map_or(Reply::New, Reply::Before));
    }
    if map::set::insert(pool, tick)? {
        Ok(Reply::New)
    } else {
        Ok(Reply::There)
    }
}

fn remove(pool: &mut [u64], tick: u64) -> Result<Reply, Refusal> {
    if Kind::of(pool) == Kind::Map {
        return Ok(map::remove(pool, tick)?.map_or(Reply::Absent, Reply::RemovedPlace));
    }
    if map::set::remove(pool, tick)? {
        Ok(Reply::Removed)
    } else {
        Ok(Reply::Absent)
    }
}

fn get(pool: &[u64], tick: u64) -> Result<Reply, Refusal> {
    let kind = Kind::of(pool);
    let got = match kind {
        Kind::Map => map::get(pool, tick)?,
        Kind::Set => map::set::get(pool, tick)?,
    };
    Ok(match (got.value, kind) {
        (None, _) => Reply::Missing(got.read),
        (Some(place), Kind::Map) => Reply::Place(place, got.read),
        (Some(_), Kind::Set) => Reply::Present(got.read),
    })
}

// The cursor, which stays open from one command to the next: its gap is kept in the pool's head.
fn open(pool: &mut [u64], gap: Gap) -> Result<Reply, Refusal> {
    let read = match gap {
        Gap::Lower(bound) => opening::lower(pool, by_number(bound))?,
        Gap::Upper(bound) => opening::upper(pool, by_number(bound))?,
    };
    Ok(Reply::Opened(read))
}

// What a command comes to, where no call refuses.
fn ask(rt: &impl Print, pool: &mut [u64], command: Command<'_>) -> Result<Reply, Stop> {
    Ok(match command {
        // These are not for one pool in memory.
        Command::Help | Command::Sample | Command::Copy(_) => Reply::Told,
        Command::Make { kind, .. } => make(pool, kind)?,
        Command::Clear => map::pool::clear(pool).map(|()| Reply::Cleared)?,
        Command::Check if map::pool::check(pool) => Reply::Sound,
        Command::Check => Reply::NotSound,
        Command::Show => show::show(rt, pool)?,
        Command::Stats => stats::stats(rt, pool)?,
        Command::Insert { tick, place } => insert(pool, tick, place)?,
        Command::Get(tick) => get(pool, tick)?,
        Command::Replace(e) => {
            map::replace(pool, e.key, e.value)?.map_or(Reply::Absent, Reply::Before)
        }
        Command::Remove(tick) => remove(pool, tick)?,
        Command::List { from, to } => look::list(rt, pool, from, to)?,
        Command::Open(gap) => open(pool, gap)?,
        Command::Next => cursor::next(pool)?.map_or(Reply::End, Reply::Passed),
        Command::Prev => cursor::prev(pool)?.map_or(Reply::Start, Reply::Passed),
        Command::PeekNext => cursor::peek_next(pool)?.map_or(Reply::End, Reply::Seen),
        Command::PeekPrev => cursor::peek_prev(pool)?.map_or(Reply::Start, Reply::Seen),
        Command::WriteNext(place) => {
            cursor::write_next(pool, place)?.map_or(Reply::End, Reply::Before)
        }
        Command::WritePrev(place) => {
            cursor::write_prev(pool, place)?.map_or(Reply::Start, Reply::Before)
        }
        Command::InsertAfter(e) => {
            edit::insert_after(pool, e.key, e.value).map(|()| Reply::New)?
        }
        Command::RemoveNext => edit::remove_next(pool)?.map_or(Reply::End, Reply::RemovedEntry),
        Command::Close => cursor::close(pool).map(|()| Reply::Closed)?,
        Command::Scrub { tick, steps } => look::scrub(rt, pool, tick, steps)?,
    })
}

pub fn run(rt: &impl Print, pool: &mut [u64], command: Command<'_>) -> io::Result<Reply> {
    match ask(rt, pool, command) {
        Ok(reply) => Ok(reply),
        Err(Stop::Refused(why)) => Ok(Reply::Refused(why)),
        Err(Stop::Unwritten(error)) => Err(error),
    }
}

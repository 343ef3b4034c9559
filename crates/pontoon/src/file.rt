// A command on a pool that a file keeps: the file is loaded, the command runs in memory, and where it changed the pool
// the file is replaced before the command says so. Make and copy write a new file, never over one that is there.
// `rt` and `err` stay two parameters: they are handles of two types, and a struct would be generic over both.
use crate::command::Command;
use crate::reply::Reply;
use crate::run::run;
use crate::store::{LoadError, WORDS};
use crate::{complain, store};
use std::io;
use std::rt::Files;

// ---- what a command leaves

// The pool into a file of a name that no file has; whether that was done; if not, it is complained of already.
fn store_new(rt: &impl Files, err: &impl Print, path: &[u8], pool: &[u64]) -> bool {
    if let Err(error) = store::create(rt, path) {
        let text = "exists already: a new pool goes into a new file";
        complain::not_made(err, path, text, error);
        return false;
    }
    if !store::store(rt, err, path, pool) {
        store::remove(rt, path);
        return false;
    }
    true
}

// Whether the file has what the command has left.
fn is_kept(rt: &impl Files, err: &impl Print, path: &[u8], pool: &[u64], reply: Reply) -> bool {
    if reply.is_new() {
        return store_new(rt, err, path, pool);
    }
    !reply.is_change() || store::store(rt, err, path, pool)
}

fn finish(
    rt: &(impl Files + Print),
    err: &impl Print,
    path: &[u8],
    pool: &[u64],
    reply: Reply,
) -> io::Result<()> {
    if is_kept(rt, err, path, pool, reply) {
        reply.tell(rt)?;
    }
    Ok(())
}

// ---- the commands

fn run_on(
    rt: &(impl Files + Print),
    err: &impl Print,
    file: &[u8],
    pool: &mut [u64],
    command: Command<'_>,
) -> io::Result<()> {
    let reply = run(rt, pool, command)?;
    finish(rt, err, file, pool, reply)
}

// Not inlined: the other pool's words, a mebibyte, would then lie in the frame of every command on a file.
#[inline(never)]
fn copy(rt: &(impl Files + Print), err: &impl Print, to: &[u8], pool: &[u64]) -> io::Result<()> {
    let mut words = [0; WORDS];
    let Some(other) = words.get_mut(..pool.len()) else {
        return Ok(());
    };
    let reply = match map::pool::copy(pool, other) {
        Ok(()) => Reply::Copied,
        Err(why) => Reply::Refused(why),
    };
    finish(rt, err, to, other, reply)
}

// A file that is no pool by its length is not sound either, and that is all.
fn no_pool(rt: &impl Print, err: &impl Print, file: &[u8], command: Command<'_>) -> io::Result<()> {
    complain::length(err, file);
    match command {
        Command::Check => Reply::NotSound.tell(rt),
        _ => Ok(()),
    }
}

// A command on the pool that is loaded.
fn on(
    rt: &(impl Files + Print),
    err: &impl Print,
    file: &[u8],
    words: &mut [u64],
    command: Command<'_>,
) -> io::Result<()> {
    match store::load(rt, file, words) {
        Ok(pool) => match command {
            Command::Copy(to) => copy(rt, err, to, pool),
            _ => run_on(rt, err, file, pool, command),
        },
        Err(LoadError::NoPool) => no_pool(rt, err, file, command),
        Err(LoadError::Unread(error)) => {
            complain::file(err, file, error);
            Ok(())
        }
    }
}

// Not inlined: the pool's words, a mebibyte, would then lie below the sample and all that is complained of, too.
#[inline(never)]
pub fn act(
    rt: &(impl Files + Print),
    err: &impl Print,
    file: &[u8],
    command: Command<'_>,
) -> io::Result<()> {
    let mut words = [0; WORDS];
    match command {
        Command::Make { size, .. } => match words.get_mut(..size.words()) {
            Some(pool) => run_on(rt, err, file, pool, command),
            None => Ok(()),
        },
        _ => on(rt, err, file, &mut words, command),
    }
}

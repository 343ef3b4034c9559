// A pool's words as a file's bytes, 8 for each word, the lowest first, and nothing else. A file is replaced in one
// step: the new bytes go into a file beside it, which then takes its name, so that a crash leaves the old pool or the
// new one.
use crate::complain;
use model::{FIRST_PAGE, MOST_PAGES, PAGE_WORDS};
use std::fs::{File, OpenFile, OpenOptions};
use std::io::{Read, Write};
use std::rt::Files;
use std::{fs, io};
use table::read_full;

// Words of the largest pool. They stand in an array and no `Vec`, which could want memory.
pub const WORDS: usize = FIRST_PAGE + PAGE_WORDS * MOST_PAGES;

// Words that are read or written at a time.
const SOME: usize = 512;

// What the name of the file beside it has more.
const NEW: &[u8] = b".new";

// Bytes of such a name; the system takes no path of 4096. An array and no `Vec`, which could want memory.
const NAME: usize = 4096 + 4;

// What is said where that name is taken.
const TAKEN: &str =
    "is there: another command is writing the pool, or one was cut short; then remove it";

// Why there is no pool: the file is none by its length, or it could not be read.
#[derive(Debug, Drop)]
pub enum LoadError {
    NoPool,
    Unread(io::Error),
}

impl From<io::Error> for LoadError {
    fn from(error: io::Error) -> LoadError {
        LoadError::Unread(error)
    }
}

// ---- files by name

// A file's name as text, which it has to be.
fn text_of(path: &[u8]) -> io::Result<&str> {
    str::from_utf8(path).map_err(|_| io::Error::new(
        io::ErrorKind::InvalidFilename,
        "The name is not UTF-8",
    ))
}

// A new file of a name that no file has.
pub fn create<R: Files>(rt: &R, path: &[u8]) -> io::Result<R::File> {
    OpenOptions::new()
        .write(true)
        .create_new(true)
        .open(rt, text_of(path)?)
}

// A file goes, where there is one.
pub fn remove(rt: &impl Files, path: &[u8]) {
    if let Ok(text) = text_of(path) {
        let _ = fs::remove_file(rt, text);
    }
}

fn rename(rt: &impl Files, from: &[u8], to: &[u8]) -> io::Result<()> {
    fs::rename(rt, text_of(from)?, text_of(to)?)
}

// ---- loading

// The next bytes of a file as words; how many bytes there were.
fn read_some(file: &mut impl Read, words: &mut [u64]) -> io::Result<usize> {
    let mut bytes = [0; 8 * SOME];
    let n = read_full(file, &mut bytes)?;
    for (word, bytes) in words.iter_mut().zip(bytes[..n].as_chunks().0) {
        *word = u64::from_le_bytes(*bytes);
    }
    Ok(n)
}

// The bytes of a file as words; how many bytes there were, until it ended or the words did.
fn read_all(file: &mut impl Read, words: &mut [u64]) -> io::Result<usize> {
    let mut bytes: usize = 0;
    for some in words.chunks_mut(SOME) {
        let n = read_some(file, some)?;
        bytes = bytes.saturating_add(n);
        if n < 8 * SOME {
            break;
        }
    }
    Ok(bytes)
}

// Whether a file has no more bytes.
fn has_ended(file: &mut impl Read) -> io::Result<bool> {
    Ok(file.read(&mut [0])? == 0)
}

// The pool in a file, at the start of words enough for the largest.
pub fn load<'a>(
    rt: &impl Files,
    path: &[u8],
    words: &'a mut [u64],
) -> Result<&'a mut [u64], LoadError> {
    let mut file = File::open(rt, text_of(path)?)?;
    let bytes = read_all(&mut file, words)?;
    if !has_ended(&mut file)? || bytes % 8 != 0 || !lend::head::allowed(bytes / 8) {
        return Err(LoadError::NoPool);
    }
    words.get_mut(..bytes / 8).ok_or(LoadError::NoPool)
}

// ---- storing

// Whether something was done is a `bool`: what was in the way is complained of at once, where the name of the file
// beside still stands, and an error would have nothing left to say.

// The name of the file beside it, where there is room for it.
fn beside<'a>(path: &[u8], room: &'a mut [u8; NAME]) -> Option<&'a [u8]> {
    let n = path.len();
    let end = n.checked_add(NEW.len())?;
    room.get_mut(..n)?.copy_from_slice(path);
    room.get_mut(n..end)?.copy_from_slice(NEW);
    room.get(..end)
}

// The first words of some, as many as are written at a time.
fn write_some(file: &mut impl Write, words: &[u64]) -> io::Result<()> {
    let mut all = [[0; 8]; SOME];
    for (bytes, word) in all.iter_mut().zip(words) {
        *bytes = word.to_le_bytes();
    }
    file.write_all(all[..words.len().min(SOME)].as_flattened())
}

// The new file goes, of which a call failed.
fn give_up(rt: &impl Files, err: &impl Print, name: &[u8], error: io::Error) -> bool {
    complain::file(err, name, error);
    remove(rt, name);
    false
}

// The words into a new file, on the disk; the file is closed then.
fn fill<F: Write + OpenFile + Drop>(mut file: F, words: &[u64]) -> io::Result<()> {
    for some in words.chunks(SOME) {
        write_some(&mut file, some)?;
    }
    file.sync_all()
}

// A new file with the words, which then takes the name.
fn replace(rt: &impl Files, err: &impl Print, path: &[u8], name: &[u8], words: &[u64]) -> bool {
    let file = match create(rt, name) {
        Ok(file) => file,
        Err(error) => {
            complain::not_made(err, name, TAKEN, error);
            return false;
        }
    };
    if let Err(error) = fill(file, words) {
        return give_up(rt, err, name, error);
    }
    if let Err(error) = rename(rt, name, path) {
        return give_up(rt, err, name, error);
    }
    true
}

// The pool into the file of a name; whether that was done.
pub fn store(rt: &impl Files, err: &impl Print, path: &[u8], words: &[u64]) -> bool {
    match beside(path, &mut [0; NAME]) {
        Some(name) => replace(rt, err, path, name, words),
        None => false,
    }
}

// What cannot be carried out, on standard error: words that are no command, and files that are no pool. Nothing is
// then written to standard output. A complaint that standard error does not take is lost, for there is nowhere left
// to say so.
use crate::command::{BadWord, Wrong};
use crate::usage;
use crate::words::Words;
use std::fmt::Display;
use std::io;
use std::io::Write;

// Of a word or of a file's name, which need not be text.
fn of(err: &impl Print, what: &[u8], text: impl Display + Drop) {
    let _ = print!(err; "pontoon: '");
    let _ = err.write_all(what);
    let _ = println!(err; "' {text}");
}

pub fn too_long(err: &impl Print) {
    let _ = println!(err; "pontoon: the words are too long");
}

// What is wrong with a word, and how the command is written.
pub fn about(err: &impl Print, words: Words<'_>, bad: BadWord<'_>) {
    of(err, bad.word, bad.wrong);
    if bad.wrong != Wrong::NotKnown {
        let _ = usage::print(err, words.word(0));
    }
}

// ---- files

// The system's words in the text of an error, which has the error's number after them.
fn words_of(text: &str) -> &str {
    match text.rsplit_once(" (os error ") {
        Some((words, _)) => words,
        None => text,
    }
}

// What the system says of a file, of the call that failed. The text goes into an array and no `String`, which could
// want memory.
pub fn file(err: &impl Print, path: &[u8], error: io::Error) {
    let mut text = io::Cursor::new([0u8; 256]);
    let _ = write!(text, "{error}");
    let _ = print!(err; "pontoon: ");
    let _ = err.write_all(path);
    let text = text.into_inner();
    let said = text.split(|byte| *byte == 0).next().unwrap_or_default();
    let _ = println!(err; ": {}", words_of(str::from_utf8(said).unwrap_or_default()));
}

// A new file that could not be made: its name is taken, of which the text tells more, or what the system says.
pub fn not_made(err: &impl Print, path: &[u8], text: &str, error: io::Error) {
    if error.kind() == io::ErrorKind::AlreadyExists {
        of(err, path, text);
    } else {
        file(err, path, error);
    }
}

// A file that is no pool.
pub fn length(err: &impl Print, path: &[u8]) {
    of(
        err,
        path,
        "is no pool, by its length: a pool has 768 bytes, and 256 more for each of 1 to 4096 pages",
    );
}

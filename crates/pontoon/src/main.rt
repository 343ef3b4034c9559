// The command `pontoon`: a pool kept in a file, for the bench. This file takes the words and hands them on: to the
// sample, which works in memory, or to the commands on a file.
#![tactic(auto)]

pub mod command;
pub mod complain;
pub mod file;
pub mod kind;
pub mod look;
pub mod reply;
pub mod run;
pub mod sample;
pub mod show;
pub mod size;
pub mod stats;
pub mod store;
pub mod usage;
pub mod words;

use crate::command::Command;
use crate::words::{LINE, Words};
use std::io;
use std::rt::Files;

fn begin(rt: &(impl Files + Print), err: &impl Print, words: Words<'_>) -> io::Result<()> {
    match command::parse(words) {
        Ok(Command::Help) => usage::help(rt),
        Ok(Command::Sample) => sample::tour(rt),
        Ok(command) => file::act(rt, err, words.word(1), command),
        Err(bad) => {
            complain::about(err, words, bad);
            Ok(())
        }
    }
}

// The exit status is 0 in any case, also where standard output takes nothing more; the command then ends.
fn main(rt: HostRuntime) {
    let err = rt.stderr();
    let mut line = [0; LINE];
    match words::gather(&rt, &mut line) {
        Some(line) => {
            let _ = begin(&rt, &err, Words::new(line, 0));
        }
        None => complain::too_long(&err),
    }
}

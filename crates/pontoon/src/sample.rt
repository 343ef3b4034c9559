// The sample: the same commands on pools in memory, as they would be typed, and what each says. A burst of 24 frames
// in a pool of six pages, and a pool of one page that is soon full.
use crate::command::parse;
use crate::reply::Reply;
use crate::run::run;
use crate::words::Words;
use model::{FIRST_PAGE, PAGE_WORDS};
use std::io;

// Words of the two pools.
const SAMPLE: usize = FIRST_PAGE + 6 * PAGE_WORDS;

const TINY: usize = FIRST_PAGE + PAGE_WORDS;

// The commands, a line each. After a dot stands one that is not shown: it has to say that its tick is new. A line in
// brackets is a remark.
const SCRIPT: &str = " make sample 6
 insert sample 1000 0
. insert sample 1041 1
. insert sample 1083 2
. insert sample 1125 3
. insert sample 1166 4
. insert sample 1208 5
. insert sample 1250 6
. insert sample 1291 7
. insert sample 1333 8
. insert sample 1375 9
. insert sample 1416 10
. insert sample 1458 11
. insert sample 1500 12
. insert sample 1541 13
. insert sample 1583 14
. insert sample 1625 15
. insert sample 1666 16
. insert sample 1708 17
. insert sample 1750 18
. insert sample 1791 19
. insert sample 1833 20
. insert sample 1875 21
. insert sample 1916 22
(22 frames more, 1041 to 1916, go in the same way, each of them new)
 insert sample 1958 23
 replace sample 1500 112
 get sample 1500
 get sample 1501
 list sample 1200 1300
 show sample
 stats sample
 scrub sample 1490 2
 open sample lower included 1500
 insert sample 1480 24
 insert-after sample 1500 24
 insert-after sample 1480 24
 next sample
 close sample
 remove sample 1000
 check sample
 make tiny 1 set
 insert tiny 1000
. insert tiny 1041
. insert tiny 1083
. insert tiny 1125
. insert tiny 1166
. insert tiny 1208
. insert tiny 1250
. insert tiny 1291
. insert tiny 1333
(8 frames more, 1041 to 1333, go in the same way, each of them new)
 insert tiny 1375
 show tiny";

// A command on the pool that it names. The small one begins in the same words once the other is done with.
fn act(rt: &impl Print, words: &mut [u64; SAMPLE], line: &str) -> io::Result<Reply> {
    let asked = Words::new(line.as_bytes(), b' ');
    let n = match asked.word(1) {
        b"tiny" => TINY,
        _ => SAMPLE,
    };
    match parse(asked) {
        Ok(command) => run(rt, &mut words[..n], command),
        Err(_) => Ok(Reply::Told),
    }
}

fn shown(rt: &impl Print, words: &mut [u64; SAMPLE], line: &str) -> io::Result<()> {
    println!(rt; "$ pontoon{line}")?;
    act(rt, words, line)?.tell(rt)
}

// Nothing is shown of a tick that is new.
fn hidden(rt: &impl Print, words: &mut [u64; SAMPLE], line: &str) -> io::Result<()> {
    match act(rt, words, line)? {
        Reply::New => Ok(()),
        reply => reply.tell(rt),
    }
}

pub fn tour(rt: &impl Print) -> io::Result<()> {
    let mut words = [0; SAMPLE];
    for line in SCRIPT.lines() {
        if line.starts_with(' ') {
            shown(rt, &mut words, line)?;
        } else if let Some(line) = line.strip_prefix('.') {
            hidden(rt, &mut words, line)?;
        } else {
            rt.println(line)?;
        }
    }
    Ok(())
}

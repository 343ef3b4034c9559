// A line of the list: its call's name, the numbers that the call is given, and std's answer with what is left of the
// list. A bound's kind is the number that the library's calls take, and Unbounded has 0 for its key.
use crate::text::{cut, is_end, word};
use table::number;

// Words before the colon: no call is given more.
const MOST: u8 = 4;

// Room for the numbers of as many words, where each is the letter of Unbounded, which gives two.
const ROOM: usize = 8;

// The numbers that a call is given. An array and no `Vec`: reading a line can't want memory.
#[derive(Clone, Copy)]
pub struct Numbers {
    room: [u64; ROOM],
    count: usize,
}

impl Numbers {
    const NONE: Numbers = Numbers {
        room: [0; ROOM],
        count: 0,
    };

    pub fn as_slice(&self) -> &[u64] {
        self.room.get(..self.count).unwrap_or_default()
    }

    // None where there is no room for one more.
    fn push(&mut self, n: u64) -> Option<()> {
        *self.room.get_mut(self.count)? = n;
        self.count += 1;
        Some(())
    }

    // A number, or a bound's kind by its letter; none where the word is neither.
    fn add(&mut self, word: &[u8]) -> Option<()> {
        match word {
            b"i" => self.push(0),
            b"e" => self.push(1),
            b"u" => {
                self.push(2)?;
                self.push(0)
            }
            _ => self.push(number(word)?),
        }
    }
}

#[derive(Clone, Copy)]
pub struct Line<'a> {
    pub numbers: Numbers,
    pub answer: &'a [u8],
}

impl<'a> Line<'a> {
    // What stands after a call's name; none where it is not understood.
    pub fn read(text: &'a [u8]) -> Option<Line<'a>> {
        let mut numbers = Numbers::NONE;
        let mut rest = text;
        for _ in 0..MOST {
            let Some(given) = rest.strip_prefix(b" ") else {
                break;
            };
            if given.first() == Some(&b':') {
                break;
            }
            numbers.add(word(given))?;
            rest = cut(given).1;
        }
        Some(Line {
            numbers,
            answer: answer(rest)?,
        })
    }
}

// What is left after the colon; from the line's end on, where there is none.
fn answer(text: &[u8]) -> Option<&[u8]> {
    if is_end(text) {
        return Some(text);
    }
    let colon = text.strip_prefix(b" ")?;
    match word(colon) {
        b":" => colon.strip_prefix(b":"),
        _ => None,
    }
}

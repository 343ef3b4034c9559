// The words that a script's calls are made on: the pool, other words, a spare place, the pool before a call, and words
// that no call has written. Each is as long as a pool of three pages; they are one array, since a script may say that
// the pool has more words, and it is then the first words of all of them.
use crate::told::Told;
use map::refusal::MAP;
use table::UNTOUCHED;

// Words of a pool of three pages.
const THREE: usize = 192;

type Words = [u64; THREE];

#[derive(Clone, Copy)]
pub enum Part {
    Pool,
    Others,
    Spare,
    Before,
    Fresh,
}

#[derive(Drop)]
pub struct Space {
    parts: [Words; 5],
}

fn copy_to(from: &[u64], to: &mut [u64]) -> Told {
    match map::pool::copy(from, to) {
        Ok(()) => Told::Done,
        Err(why) => Told::Refused(why),
    }
}

impl Space {
    pub fn new() -> Space {
        Space {
            parts: [[UNTOUCHED; THREE]; 5],
        }
    }

    // The pool of so many words, where there are as many.
    pub fn pool(&mut self, words: usize) -> Option<&mut [u64]> {
        self.parts.as_flattened_mut().get_mut(..words)
    }

    pub fn copy(&mut self, from: Part, to: Part) {
        let words = self.parts[from as usize];
        self.parts[to as usize] = words;
    }

    pub fn trade(&mut self) {
        self.copy(Part::Pool, Part::Spare);
        self.copy(Part::Others, Part::Pool);
        self.copy(Part::Spare, Part::Others);
    }

    // How many of the pool's words are not as those of another part.
    pub fn changed(&self, part: Part) -> usize {
        let pool = self.parts[Part::Pool as usize];
        let other = self.parts[part as usize];
        pool.iter().zip(&other).filter(|(a, b)| a != b).count()
    }

    // The pool copied into the first so many of other words, which were 0.
    pub fn copy_out(&mut self, words: usize, copied: usize) -> Option<Told> {
        let pool = self.pool(words)?;
        let mut others = [0u64; THREE];
        let told = match others.get_mut(..copied) {
            Some(to) => Some(copy_to(pool, to)),
            None => None,
        };
        self.parts[Part::Others as usize] = others;
        told
    }
}

// A new map in so many other words, copied into the pool.
pub fn copy_in(pool: &mut [u64], words: usize) -> Option<Told> {
    let mut others = [UNTOUCHED; THREE];
    let map = others.get_mut(..words)?;
    let _ = map::pool::make(map, MAP);
    Some(copy_to(map, pool))
}

// The page map: bit b of word w, counted from the lowest, stands for page 64w + b; 1 means taken. Its words are lent,
// and one is held at a time. The promises hold for any words; `pages` is P.
// Clauses ask that the words have a bit for each page, and no type says it: they are lent anew for each call.
#![tactic(auto)]

ghost use Rattle.std.specs.Prelude.{◌≡◌, ◌+◌, ◌*◌, ◌≤◌, min, eqb, length};
ghost use Rattle.model.specs.Sums.{sum_to};
ghost use Rattle.model.specs.PageMap.{bit, bit_at};
ghost use Rattle.pagemap.specs.Bits.{count_bits, set_bit, clear_bit};
ghost use Rattle.pagemap.specs.Lowest.{free_in, lowest_of, took, enough, most_words};

// Whether the page's bit is 1. A page past the map's words is not taken.
pub fn is_taken(map: &[u64], page: usize) -> bool
    ensures { result ≡ eqb (bit_at map.now page) 1 }
{
    match map.get(page / 64) {
        Some(word) => (*word >> (page % 64)) % 2 == 1,
        None => false,
    }
}

// Sets the page's bit. Nothing changes where the page is past the map's words.
pub fn take(map: &mut [u64], page: usize)
    ensures { map.new ≡ set_bit map.old page }
{
    let w = page / 64;
    // No `get_mut`: the proof does not close, since of a slice nothing is known of the words once that borrow is over.
    if w < map.len() {
        map[w] |= 1 << (page % 64);
    }
}

// Clears the page's bit. Nothing changes where the page is past the map's words.
pub fn free(map: &mut [u64], page: usize)
    ensures { map.new ≡ clear_bit map.old page }
{
    let w = page / 64;
    // No `get_mut`, as in `take`.
    if w < map.len() {
        map[w] &= !(1 << (page % 64));
    }
}

// The lowest free page: the first word that is not full has it at its lowest 0.
pub fn lowest_free(map: &[u64], pages: usize) -> Option<usize>
    requires { (length map.now ≤ most_words) × (pages ≤ 64 * length map.now) }
    ensures { result ≡ lowest_of (free_in map.now pages) }
{
    for (w, word) in map.iter().enumerate() {
        let b = (!word).trailing_zeros() as usize;
        if b < 64 {
            let p = 64 * w + b;
            return if p < pages { Some(p) } else { None };
        }
    }
    None
}

// Takes the lowest free page, and says which it was.
pub fn take_lowest(map: &mut [u64], pages: usize) -> Option<usize>
    requires { (length map.old ≤ most_words) × (pages ≤ 64 * length map.old) }
    ensures { (result ≡ lowest_of (free_in map.old pages)) × (map.new ≡ took map.old result) }
{
    let page = lowest_free(map, pages)?;
    take(map, page);
    Some(page)
}

// How many pages are taken, by the machine's count of ones.
pub fn taken(map: &[u64]) -> usize
    requires { length map.now ≤ most_words }
    ensures { result ≡ count_bits map.now }
{
    let mut n = 0;
    for word in map {
        n += word.count_ones() as usize;
    }
    n
}

// Whether at least `k` pages are free. It stops where enough are found.
pub fn has_free(map: &[u64], pages: usize, k: usize) -> bool
    requires { (length map.now ≤ most_words) × (pages ≤ 64 * length map.now) }
    ensures { result ≡ enough map.now pages k }
{
    let mut free = 0;
    for w in 0..pages.div_ceil(64) {
        if k <= free {
            return true;
        }
        free += zeros(map[w], pages - 64 * w);
    }
    k <= free
}

// How many of the word's lowest `n` bits are 0; of all its bits where `n` is more. A full word, as most are in a pool
// in use, is passed over.
fn zeros(word: u64, n: usize) -> usize
    ensures { result + sum_to (bit word) (min n 64) ≡ min n 64 }
{
    if word == u64::MAX {
        0
    } else if n < 64 {
        n - (word & ((1 << n) - 1)).count_ones() as usize
    } else {
        64 - word.count_ones() as usize
    }
}

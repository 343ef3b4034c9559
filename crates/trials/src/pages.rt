// A page of a pool, as document 01's bench cases speak of it: free, or the keys that it holds, and whether it is the
// root.
use crate::told::Told;
use model::{HEAD_WORDS, MOST, ROOT};
use std::io;
use table::word_at;

// One of the first 64 pages, whose bits are in the page map's first word. The keys are printed here.
pub fn page(rt: &impl Print, pool: &[u64], page: usize) -> io::Result<Option<Told>> {
    if 63 < page {
        return Ok(None);
    }
    if (word_at(pool, HEAD_WORDS) >> page) % 2 == 0 {
        return Ok(Some(Told::Free(page)));
    }
    if word_at(pool, ROOT) == page as u64 + 1 {
        print!(rt; " root")?;
    }
    print!(rt; " page {page} holds")?;
    let first = model::first_word(page);
    let count = word_at(pool, first) as usize;
    for i in 0..count.min(MOST) {
        print!(rt; " {}", word_at(pool, first + 2 + i))?;
    }
    Ok(None)
}

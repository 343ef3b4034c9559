// The page map, lent out of the pool, `&mut pool[32..96]`, to the crate `pagemap`. P is taken from the pool's length.
// What clauses ask of the pool no type says: the reason stands in src/lib.rt.
ghost use Rattle.model.specs.Layout.{today, first_word, pages_in};
ghost use Rattle.std.specs.Prelude.{◌≡◌, ◌≤◌, eqb, length};
ghost use Rattle.model.specs.PageMap.{bit_at};
ghost use Rattle.pagemap.specs.Bits.{count_bits, clear_bit};
ghost use Rattle.pagemap.specs.Lowest.{free_in, lowest_of, took, enough};
ghost use Rattle.lend.specs.Pages.{map_in};
ghost use Rattle.lend.specs.Touches.{Sized, MapBecomes};

use model::{FIRST_PAGE, HEAD_WORDS, PAGE_WORDS};

// P, by the length.
pub fn pages_in(pool: &[u64]) -> usize
    requires { first_word today 0 ≤ length pool.now }
    ensures { result ≡ pages_in today (length pool.now) }
{
    (pool.len() - FIRST_PAGE) / PAGE_WORDS
}

pub fn is_taken(pool: &[u64], p: usize) -> bool
    requires { first_word today 0 ≤ length pool.now }
    ensures { result ≡ eqb (bit_at (map_in pool.now) p) 1 }
{
    pagemap::is_taken(&pool[HEAD_WORDS..FIRST_PAGE], p)
}

pub fn taken(pool: &[u64]) -> usize
    requires { first_word today 0 ≤ length pool.now }
    ensures { result ≡ count_bits (map_in pool.now) }
{
    pagemap::taken(&pool[HEAD_WORDS..FIRST_PAGE])
}

pub fn has_free(pool: &[u64], k: usize) -> bool
    requires { Sized pool.now }
    ensures { result ≡ enough (map_in pool.now) (pages_in today (length pool.now)) k }
{
    let pages = pages_in(pool);
    pagemap::has_free(&pool[HEAD_WORDS..FIRST_PAGE], pages, k)
}

pub fn take_lowest(pool: &mut [u64]) -> Option<usize>
    requires { Sized pool.old }
    ensures { (result ≡ lowest_of (free_in (map_in pool.old) (pages_in today (length pool.old)))) × MapBecomes (took (map_in pool.old) result) pool.old pool.new }
{
    let pages = pages_in(pool);
    pagemap::take_lowest(&mut pool[HEAD_WORDS..FIRST_PAGE], pages)
}

pub fn free(pool: &mut [u64], p: usize)
    requires { first_word today 0 ≤ length pool.old }
    ensures { MapBecomes (clear_bit (map_in pool.old) p) pool.old pool.new }
{
    pagemap::free(&mut pool[HEAD_WORDS..FIRST_PAGE], p)
}

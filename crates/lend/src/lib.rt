// The pool's parts, lent out of its middle: the head, which is tested; the page map, lent to `pagemap`; the pages, lent
// one at a time to `page`, and what moves between two of them. Any words will do, where the pool is long enough and
// page numbers lie inside it; the number of levels alone asks for a head that fits.
#![tactic(auto)]

// Clauses, and no type, say that the head fits, that there is room for head and page map, and that a page lies inside.
// A pool is lent by C as `&[u64]` or `&mut [u64]`, and every function takes any words. A type with an invariant would
// be needed twice, shared and mutable, and built again after each store, for on unsound words nothing is promised of
// the head or of page numbers after a change; and contracts would speak of `pool.words.now`. That is no plainer.

pub mod bits;
pub mod head;
pub mod pages;

// The tree over the pool: search, steps along a path, insertion, removal, overwriting and check. A path is a page and a
// slot for each level, root first, in one slice that the caller lends. Every function takes any words: it tests what it
// reads, stays inside the pool and ends; all reading and every refusal come before the first store. Pages and the
// page map are lent out of the pool's middle by the crate `lend`, which tests the head too.
#![tactic(auto)]

// A child is a page's number and no `Box`: the tree lies in the words that are lent, and there is no heap.

pub mod check;
pub mod insert;
pub mod remove;
pub mod search;
pub mod steps;
pub mod write;

// The library that C and Rust link: each call of document 01 as one exported function, thin over map and cursor, which
// takes the answer apart into numbers. Nothing is asked of the caller: with fewer than 4 words of `out` each returns
// 255 and does nothing. A refusal leaves every lent word as it was. C knows each call by its own name, so each is a
// function; and each tests `out` itself, before the call, which may store.
#![tactic(auto)]

pub mod cursor_calls;
pub mod give;
pub mod map_calls;
pub mod pool_calls;
pub mod set_calls;

//! Whether two languages are the same, and else a shortest word by which they differ.
//!
//! - [`compare`]: whether they are the same, and else a shortest word of exactly one of them.
//! - [`outside`]: a shortest word of the first that isn't in the second.
//! - `search`: the walk over pairs of states, breadth first, that finds such a word. `sought`: which words it finds.
#![tactic(auto)]

mod comparing;
mod search;
mod sought;

pub use comparing::{Compared, compare, outside};

//! Boolean operations on complete automata, and what is in their languages.
//!
//! - [`both`], [`minus`]: the words of two languages, and those of one that aren't in the other.
//! - [`complement`]: the words over the letters that aren't in a language.
//! - [`shortest`], [`is_empty`]: a shortest word of a language, and whether there is none.
#![tactic(auto)]

mod complements;
mod products;
mod search;

pub use complements::{complement, complement_is_undone};
pub use products::{both, minus};
pub use search::{is_empty, shortest};

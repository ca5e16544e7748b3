//! What stands in an expression: its leaves, and whether it uses the alphabet; and expressions whose leaves are replaced by others.
//!
//! - [`leaves`]: the leaves of an expression, in the order of their places.
//! - [`uses_alphabet`]: whether what it means depends on symbols that don't stand in it.
//! - [`LeafMap`]: what leaves are replaced by. [`map_leaves`], [`map_contexts`]: an expression and contexts with their leaves
//!   replaced; `mapped` (specs/) says what that is.
#![tactic(auto)]

mod alphabet;
mod listing;
mod mapping;

pub use alphabet::uses_alphabet;
pub use listing::leaves;
pub use mapping::{LeafMap, map_contexts, map_leaves};

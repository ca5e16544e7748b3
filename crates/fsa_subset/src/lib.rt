//! Determinisation: the subset construction.
//!
//! - [`determine`]: a complete deterministic automaton with the same language, over given letters.
//! - [`determine_within`]: one without the letters that lead nowhere, where few steps make it.
//! - `letters`, `places`: edges with places of letters. `classes`: edges with classes of letters that act alike.
//!   `subsets`, `partial`, `spread`: the sets of states, and what leads from one to another.
#![tactic(auto)]

mod classes;
mod letters;
mod partial;
mod places;
mod spread;
mod subsets;

pub use spread::determine_within;
pub use subsets::determine;

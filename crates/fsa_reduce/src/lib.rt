//! A smaller automaton of the same language: states that go on alike become one (Hopcroft, Motwani and Ullman,
//! Introduction to Automata Theory, section 4.4; what is merged here is what edges show to be alike at once, and
//! not all that has the same language).
//!
//! - [`reduced`]: merges states, takes epsilon edges away where that is cheap, and merges again. [`ends_merged`]: merges them once.
//! - [`trim`]: leaves out the states from which no final state is reached.
//! - `merging`: an automaton with one state for each class of states. `classes`: which states go on alike.
//!   `order`: states in an order in which edges lead on. `numbering`: numbers in place of letters.
//! - `cutting`: an automaton without a last state that nothing reaches. `epsilon`: whether epsilon edges
//!   are cheap to take away.
#![tactic(auto)]

mod classes;
mod cutting;
mod epsilon;
mod merging;
mod numbering;
mod order;
mod reduction;
mod trimming;

pub use reduction::{ends_merged, reduced};
pub use trimming::trim;

//! The search over states that the constructions on automata share.
//!
//! - [`EdgesByState`]: the edges of an automaton, found again by the state that they leave. [`epsilon_edges`]: those without a
//!   letter. [`sorted_by_state`], [`edges_from`]: a sorted list of edges, and those that leave a state among them.
//! - [`NumberSet`]: a set of numbers below a bound, in the order in which they were found.
//! - [`add_targets`]: the states that a letter's edges enter. [`close`]: adds what epsilon edges reach.
//! - [`ListTable`]: lists of states, numbered in the order in which they came.
//! - [`explore`]: builds a complete automaton as far as its start reaches; [`LazyAutomaton`]: what it is built
//!   from, as a test and a step on lists of states ([`FoundLists`]).
//! - [`LetterClasses`]: letters that act alike. [`columns_alike`], [`rows_alike`], [`alike_in_both`]: which do.
//!   [`explore_by_class`]: `explore`, each letter leading where its class leads.
//! - [`signature_of`]: how a state goes on, as a list of numbers.
#![tactic(auto)]

mod alike;
mod closure;
mod edges_by_state;
mod gathering;
mod lazy;
mod number_set;
mod signatures;
mod table;

pub use alike::{LetterClasses, alike_in_both, columns_alike, explore_by_class, rows_alike};
pub use closure::{add_targets, close};
pub use edges_by_state::{EdgesByState, edges_from, epsilon_edges, sorted_by_state};
pub use lazy::{Explored, FoundLists, LazyAutomaton, explore};
pub use number_set::NumberSet;
pub use signatures::signature_of;
pub use table::ListTable;

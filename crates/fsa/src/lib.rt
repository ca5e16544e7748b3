//! Finite automata over any ordered letter, and their languages.
//!
//! - [`Edge`], [`Fsa`]: an automaton whose edges carry a letter or are epsilon edges. Its language is the set of
//!   words on the paths from state 0 to a final state (`specs/Language.antt`).
//! - [`Dfa`]: an automaton that is complete and deterministic over its letters (`specs/Complete.antt`).
//! - [`Dfa::accepts`]: whether a word is in the language. [`Dfa::to_fsa`]: the same language as an [`Fsa`].
//! - [`place_of`]: where a letter stands in a list.
#![tactic(auto)]

mod automaton;
mod complete;
mod place;

pub use automaton::{Edge, Fsa};
pub use complete::Dfa;
pub use place::place_of;

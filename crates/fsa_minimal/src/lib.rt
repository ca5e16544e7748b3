//! A small complete automaton of the same language: states from which the same words are accepted become one
//! (Hopcroft, An n log n algorithm for minimizing states in a finite automaton, 1971; Valmari, Fast brief practical
//! DFA minimization, 2012).
//!
//! - [`minimal`]: the same language over the same letters, by the fewest states.
//! - `refining`: splits the states into classes, as long as a letter tells two states of a class apart. States of
//!   different classes are proved to be apart: each split leaves a word that is accepted from exactly one of them.
//!   `partition`: states in classes. `inverse`: which states lead to a state.
//! - `folding`: the automaton with a state for each class that the start reaches.
//! - `checking`: whether that automaton goes on as the first one does, from which its language is proved, and whether
//!   the start reaches each of its states. No automaton has fewer states, since the words by which these are reached
//!   lead to different states of each automaton of the language (`specs/Fewest.antt`).
//!
//! Known weakness: that the classes are never too few, and so that the tests never fail, isn't proved. Where one
//! failed, `minimal` would give up with the error for memory, and not with a wrong automaton.
#![tactic(auto)]

mod checking;
mod folding;
mod inverse;
mod minimization;
mod partition;
mod refining;

pub use minimization::minimal;

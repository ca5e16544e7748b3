//! The fewest states of a deterministic automaton that isn't complete: the start leads to each, each leads on to a final
//! one, and any two are told apart by a word (Hopcroft, Motwani and Ullman, Introduction to Automata Theory, section
//! 4.4; Sakarovitch, Elements of Automata Theory, 2009, section I.1).
//!
//! - [`fewest_states`]: the same language, by the fewest states.
//! - [`is_minimal`]: whether an automaton is minimal. A minimal one has the fewest states, since the words by which its
//!   states are reached lead to different states of each deterministic automaton of the language
//!   (`specs/Minimal.antt`).
//! - `refining`: splits the states into classes, as long as a letter tells two states of a class apart. `pairs`:
//!   numbers for pairs of classes. `grouping`: the edges of each letter.
//! - `search`: the states to which the start leads, and those that lead to a final one.
//!
//! Known weaknesses: the automaton is built first and checked then, so that where the check fails there is no answer,
//! though a minimal automaton exists. That happens where more passes are needed than may be made, also of an
//! automaton without loops, and where an automaton with loops has so many edges that `fsa_reduce` doesn't merge all
//! states that go on alike. That it doesn't happen elsewhere isn't proved.
#![tactic(auto)]

mod checking;
mod grouping;
mod minimization;
mod pairs;
mod refining;
mod search;

pub use checking::is_minimal;
pub use minimization::fewest_states;

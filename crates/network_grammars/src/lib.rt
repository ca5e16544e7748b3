//! The network of a two-level grammar as its reader gives it (Koskenniemi, Two-level Morphology, 1983). Read `specs/Meaning.antt`.
//!
//! - [`network_of_grammar`]: the network.
//! - [`scope_of`], [`rules_of`]: what the leaves of a grammar's expressions stand for, a [`Scope`], and its rules over it.
//!
//! Inside, an expression of a grammar is a language over its feasible pairs: a pair stands in it as one symbol, by its number among
//! them, so that the operators of expressions build its language (`words`, `specs/PairMeaning.antt`). `scope` has what leaves stand for:
//! the feasible pairs, the sets, and the definitions so far, each of which is built once (`definitions`).
#![tactic(auto)]

mod build;
mod definitions;
mod languages;
mod leaf;
mod rules;
mod scope;
mod words;

pub use build::network_of_grammar;
pub use definitions::scope_of;
pub use rules::rules_of;
pub use scope::Scope;

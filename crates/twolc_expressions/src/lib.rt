//! Atoms of a twolc text, and expressions over pairs, from their tokens to their trees (Karttunen and Beesley, Two-Level Rule
//! Compiler, 1992). What they are says `specs/Atoms.antt` and `specs/Expressions.antt` of twolc_grammar.
//!
//! - [`KnownNames`]: the names of sets and definitions.
//! - [`part_in`]: what an atom is in an expression. [`symbols_in`], [`centre_in`], [`one_symbol_in`]: in the alphabet, as the
//!   centre of a rule, in the list of a set.
//! - [`expression`]: the expression that tokens are. [`part`]: the part of a context, which may be left out.
//! - [`has_edge`], [`has_high_power`]: what is tried on the tokens of an expression.
#![tactic(auto)]

mod atom;
mod names;
mod operand;
mod over_pairs;
mod plain;
mod tests;
mod tree;

pub use atom::part_in;
pub use names::KnownNames;
pub use plain::{centre_in, one_symbol_in, symbols_in};
pub use tests::{has_edge, has_high_power};
pub use tree::{expression, part};

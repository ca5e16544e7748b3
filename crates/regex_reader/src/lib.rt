//! The reader of xfst texts, from a text to its definitions or its first fault (Beesley and Karttunen, Finite State
//! Morphology, 2003, chapters 2 and 3).
//!
//! - [`read_xfst`]: the definitions of a file of `define` commands.
//! - [`read_expr`]: an expression alone, as an entry of a lexicon has one.
//! - [`is_name`]: whether a text may be defined. [`nests_too_deep`]: whether tokens stand in too many brackets.
//! - [`one_reading`], [`one_expression`]: the laws that a text says one thing only.
#![tactic(auto)]

mod brackets;
mod entry;
mod findings;
mod form;
mod laws;
mod name;
mod statement;
mod xfst;

pub use brackets::{Bracket, Brackets, nests_too_deep};
pub use entry::read_expr;
pub use laws::{one_expression, one_reading};
pub use name::is_name;
pub use xfst::read_xfst;

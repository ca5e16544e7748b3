//! The reader of xfst expressions (Beesley and Karttunen, Finite State Morphology, 2003, chapters 2 and 3), from their
//! tokens to their trees.
//!
//! - [`read_tokens`]: the expression that tokens are, with at most [`MOST_OPEN`] brackets open round each.
#![tactic(auto)]

mod build;
mod front;
mod leaf;
mod parsed;
mod parser;
mod whole;

pub use whole::{MOST_OPEN, read_tokens};

//! The tokens of a twolc text (Karttunen and Beesley, Two-Level Rule Compiler, 1992).
//!
//! - [`tokens`]: the tokens of a text, with their lines.
//! - [`Token`]: an [`Operator`], a quoted text or an atom; [`Placed`]: a token where it stands.
//! - [`sides`], [`undone`]: the sides of an atom, and a run without its escapes.
//! - [`one_cut`]: the law that a text is cut in one way, as a contract.
#![tactic(auto)]

mod atom;
mod bytes;
mod characters;
mod gap;
mod laws;
mod lexer;
mod operator;
mod token;

pub use atom::sides;
pub use characters::undone;
pub use laws::one_cut;
pub use lexer::tokens;
pub use token::{Operator, Placed, Token, Tokens};

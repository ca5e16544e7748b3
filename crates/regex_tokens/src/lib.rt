//! The tokens of an xfst text (Beesley and Karttunen, Finite State Morphology, 2003, chapters 2 and 3).
//!
//! - [`tokens`]: the tokens of a text, with their places.
//! - [`Token`]: an [`Operator`], a quoted text, [`Letters`] in braces or a [`Run`].
//! - [`Comments`]: what begins a comment.
//! - [`after`]: the tokens behind an operator.
//! - [`is_flag`]: whether a text is a flag diacritic, which is no token.
//! - [`one_cut`]: the law that a text is cut in one way, as a contract.
#![tactic(auto)]

mod bytes;
mod characters;
mod comments;
mod flag;
mod front;
mod gap;
mod laws;
mod lexer;
mod operator;
mod token;

pub use comments::Comments;
pub use flag::is_flag;
pub use front::after;
pub use laws::one_cut;
pub use lexer::tokens;
pub use token::{Ending, Letters, Operator, Place, Run, Token, Tokens};

//! The tokens of a lexc text (Beesley and Karttunen, Finite State Morphology, 2003, chapter 4), one after another.
//!
//! - [`scan`]: the [`Token`] that comes next, behind blanks and comments, and where it stands.
//! - [`Word`]: letters that stand together.
//!
//! `specs/Tokens.antt` has the definitions.
#![tactic(auto)]

mod expressions;
mod gaps;
mod scanning;
mod token;
mod words;

pub use scanning::{Found, Next, scan};
pub use token::{Token, Word};

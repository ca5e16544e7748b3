//! Languages over a list of letters, and the operations under which they are closed (Beesley and Karttunen, Finite
//! State Morphology, 2003, sections 2.3 and 2.4).
//!
//! - [`Lang`]: a language. Each operation's contract says, for every word, whether the result has it, and that the
//!   result is over the same letters.
//! - [`one_letter`]: the automaton of one of some letters.
#![tactic(auto)]

mod lang;
mod letters;
mod live;

pub use lang::Lang;
pub use letters::one_letter;

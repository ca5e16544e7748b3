//! Rational operations on automata (Hopcroft, Motwani and Ullman, Introduction to Automata Theory, chapters 3
//! and 4; Beesley and Karttunen, Finite State Morphology, 2003, section 2.3). Each call's contract says, for
//! every word, whether the result accepts it.
//!
//! - [`union`], [`concat`], [`star`], [`reverse`]: the operations on sets of words.
//! - [`ignore`]: words with words of another language put in.
//! - [`without_empty`]: the same language with no epsilon edge. [`entered_states`]: the states whose edges it works out.
//! - [`image`], [`preimage`]: the words that a table of letters gives, and the words for which it gives one.
//! - [`same_states`], [`add_shifted`], [`add_epsilon`], [`leave_finals`]: the pieces that constructions are made of.
#![tactic(auto)]

mod extend;
mod insertion;
mod join;
mod lettered;
mod reversal;
mod rows;
mod translate;

pub use extend::{add_epsilon, add_shifted, leave_finals, same_states};
pub use insertion::ignore;
pub use join::{concat, star, union};
pub use lettered::{entered_states, without_empty};
pub use reversal::reverse;
pub use translate::{image, preimage};

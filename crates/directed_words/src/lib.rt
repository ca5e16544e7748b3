//! Directed rules of replacement (Karttunen, Directed Replacement, 1996), by words of marks (replace_words), which hold the upper and
//! the lower word of a rewriting together.
//!
//! Read `specs/Directed.antt` of expr_meaning (what the directions ask of a derivation) and `specs/Marked.antt` (which words of marks keep it).
//!
//! - [`Length`]: whether the longest or the shortest match goes first.
//! - [`MarkKind`]: kinds of marks, by which the words are told.
//! - `specs/Laws.antt`: directed rules from the left relate the two sides of the words of marks that keep them, and nothing else; and rules
//!   from the right are rules from the left of all words turned round. The contract of `directed` (replace_directed) rests on both.
//! - `specs/Comparisons.antt`: laws of directed rules in the words of the subject, of which replace_directed makes contracts.
#![tactic(auto)]

mod kinds;
mod ways;

pub use kinds::MarkKind;
pub use ways::Length;

//! Strings of pairs that are tried on the rules of a twolc file, line by line (Koskenniemi, Two-level Morphology, 1983). Read
//! `specs/Strings.antt` and `Replies.antt`.
//!
//! - [`PairRules`]: the rules of a name, made ready once, and the replies to lines. [`Opened`]: these, or why there are none.
//! - [`read_pairs`]: the pairs of a string as it is written.
//! - [`rules_of`]: the feasible pairs and the rules of a grammar, as [`RulesOf`].
//! - [`passing_is_meant`]: the law that a name relates the two sides of a string that passes.
//!
//! Inside, `words` splits a line, `read` reads its pairs, `numbers` finds the numbers of their symbols, and `lines` has the bytes of
//! replies.
#![tactic(auto)]

mod grammar_rules;
mod laws;
mod lines;
mod numbers;
mod opened;
mod pair_rules;
mod read;
mod words;

pub use grammar_rules::{RulesOf, rules_of};
pub use laws::passing_is_meant;
pub use opened::Opened;
pub use pair_rules::PairRules;
pub use read::read_pairs;

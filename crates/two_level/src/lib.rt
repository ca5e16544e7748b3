//! Two-level grammars (Koskenniemi, Two-level Morphology, 1983): rules on strings of pairs of symbols, each as the language of
//! the strings that keep it. Read `specs/Rules.antt` first.
//!
//! - [`LangRule`], [`PairContext`]: a rule on a pair, and its contexts as languages.
//! - [`grammar`]: the transducer of a grammar. [`every_letter`]: the letters of the languages of its contexts.
//! - [`grammar_is_spelled`]: the law that numbers of symbols and their texts make no difference.
//! - `rules`: the language of a rule. `places`: where contexts hold. `marks`: strings in which a place is marked.
#![tactic(auto)]

mod intersection;
mod laws;
mod marks;
mod places;
mod rule;
mod rules;

pub use intersection::grammar;
pub use laws::grammar_is_spelled;
pub use marks::every_letter;
pub use regex_ast::RuleKind;
pub use rule::{LangRule, PairContext};

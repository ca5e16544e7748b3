//! The reader of twolc texts, from a text to its grammar or its first fault (Koskenniemi, Two-level Morphology, 1983; the
//! notation of Karttunen and Beesley, Two-Level Rule Compiler, 1992). What a text says is in `specs/Sections.antt` of
//! twolc_grammar, and that it says one thing only is a law there.
//!
//! - [`read_twolc`]: the grammar of a text.
//!
//! Inside, `list` has the pairs of the alphabet and of a set, `definition` a definition, `rule` a rule with its `head` and its `contexts`,
//! each from the tokens of its statement, and `brackets` what is tried on the tokens of each.
#![tactic(auto)]

mod brackets;
mod contexts;
mod definition;
mod head;
mod list;
mod one;
mod reader;
mod rule;
mod separator;
mod split;
mod stage;
mod statement;

pub use reader::read_twolc;

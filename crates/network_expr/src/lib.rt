//! The network of an expression: a language's automaton or a relation's transducer, which has just the meaning that
//! `expr_meaning` defines.
//!
//! - [`relation_of`]: the transducer of what an expression relates.
//! - [`language_of`]: the language of an expression that is one.
//! - [`network_of`]: the network of an expression, of its kind.
//! - [`Part`]: the network of what a name stands for, which an expression with that name is built of.
//!
//! Inside, `langs` has the parts of rules of replacement as languages, `insertions` the network of rules that are one insertion, and
//! `cascade` rows of compositions, in which small operands are composed first.
//! `specs/Rules.antt` says when rules of languages are those of an expression: where they are, `replace` (replace_rules) relates what
//! the expression relates, and `directed` (replace_directed), where its rule is directed (`proofs/RuleMeaning.antt`).
#![tactic(auto)]

mod build;
mod cascade;
mod insertions;
mod langs;
mod leaves;
mod meaning;
mod parts;

pub use build::network_of;
pub use meaning::{language_of, relation_of};
pub use parts::Part;

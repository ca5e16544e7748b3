//! What stands at the leaves of sources where names are defined: in expressions, in lexicons and in two-level grammars.
//!
//! - [`Names`]: the names of a project, in order. [`symbol_text`]: the text of a leaf.
//! - [`atom_of`], [`resolve`]: a leaf and an expression, with names by their places and symbols by their numbers in a table.
//!   [`letter_of`]: a leaf where no name may stand.
//! - [`resolve_lexicons`], [`resolve_grammar`]: lexicons and a two-level grammar with such leaves.
//! - [`expressions`]: the expressions that stand in lexicons. [`grammar_leaves`]: the leaves that stand in a grammar.
//!   [`pairs_below`]: the pairs in its definitions and rules.
//! - [`are_resolved_by_number`], [`symbols_are_of_forms`], [`is_resolved_by_number`], [`symbols_are_of_leaves`]: laws, which the
//!   contracts of the crates above cite.
//!
//! Read `specs/Numbered.antt` and `specs/Resolved.antt`; of lexicons `specs/Plain.antt`, `specs/NumberedLexicons.antt` and
//! `specs/Symbols.antt`; of grammars `specs/Plain.antt` and `specs/Mapped.antt` of grammar_pairs, then `specs/Leaves.antt`.
#![tactic(auto)]

mod grammar_laws;
mod grammars;
mod leaves;
mod lexicon_laws;
mod lexicons;
mod listing;
mod names;
mod numbers;
mod pairs;
mod resolving;
mod symbols;

pub use grammar_laws::{is_resolved_by_number, symbols_are_of_leaves};
pub use grammars::resolve_grammar;
pub use leaves::grammar_leaves;
pub use lexicon_laws::{are_resolved_by_number, symbols_are_of_forms};
pub use lexicons::resolve_lexicons;
pub use listing::expressions;
pub use names::Names;
pub use pairs::pairs_below;
pub use resolving::{atom_of, letter_of, resolve};
pub use symbols::symbol_text;

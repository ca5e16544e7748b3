//! The feasible pairs and the sets of a two-level grammar (Koskenniemi, Two-level Morphology, 1983), found by hashes. Read
//! `specs/Plain.antt` and `Feasible.antt`.
//!
//! - [`PairTable`]: the feasible pairs with their numbers. [`feasible_pairs`]: the set of them.
//! - [`NameTable`]: values under names. [`SymbolSet`], [`sets_of`]: the sets of a grammar.
//! - [`numbers_fitting`], [`numbers_twice`]: the pairs that an atom, or the name of a set, stands for.
//! - [`written`]: the pair that an atom names.
//! - [`grammar_is_in_texts`], [`resolved_is_mapped`]: laws of grammars whose leaves are replaced.
#![tactic(auto)]

mod feasible;
mod fitting;
mod laws;
mod name_table;
mod pair_table;
mod symbol_set;

pub use feasible::{feasible_pairs, written};
pub use fitting::{numbers_fitting, numbers_twice};
pub use laws::{grammar_is_in_texts, resolved_is_mapped};
pub use name_table::NameTable;
pub use pair_table::PairTable;
pub use symbol_set::{SymbolSet, sets_of};

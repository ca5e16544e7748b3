//! The language and the relation of an expression (Beesley and Karttunen, Finite State Morphology, 2003, chapter 2):
//! definitions, which the contracts of the crates above cite, and their laws. Read `specs/Operators.antt`,
//! `specs/Meaning.antt` and `specs/Leaves.antt`, in this order, and `specs/Laws.antt` for what follows from them.
//!
//! The functions do nothing when they run: each names a law, which its contract states.
//!
//! - [`language_relates_itself`]: what a language relates is each of its words, to itself.
//! - [`empty_context_allows_all`], [`edge_is_at_beginning`], [`edge_is_at_end`]: laws of contexts.
//! - [`not_is_undone`], [`inverse_is_undone`], [`composition_is_both`]: laws of operators.
//! - [`rules_replace_all`], [`optional_rules_leave_all`], [`rules_leave_others`], [`optional_rules_turn`]: laws of replacement.
//! - [`crosses_compose`], [`other_symbol`], [`only_behind`]: examples worked out.
#![tactic(auto)]

mod laws;

pub use laws::{
    composition_is_both, crosses_compose, edge_is_at_beginning, edge_is_at_end,
    empty_context_allows_all, inverse_is_undone, language_relates_itself, not_is_undone,
    only_behind, optional_rules_leave_all, optional_rules_turn, other_symbol, rules_leave_others,
    rules_replace_all,
};

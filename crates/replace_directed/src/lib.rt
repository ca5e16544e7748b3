//! The network of a directed rule of replacement (Karttunen, Directed Replacement, 1996): of the matches that begin at one place, or end
//! there, the longest is replaced, or the shortest.
//!
//! Read `specs/Directed.antt` first: what rules of languages match and replace. What they relate is then the definition of
//! expr_meaning (`IsDirectedBy`, specs/Directed.antt).
//!
//! The construction from the left goes by words of marks (replace_words, directed_words): first all well-formed ones, and then for each
//! context those that keep what is asked there, by one constraint after another, made small each time. Symbols that no part of the rule
//! tells from one another are one as long as words of marks are made, and are put back at the end. From the right all parts of the rule
//! are turned round, and then its network.
//!
//! - [`Way`], [`DirectedMap`], [`DirectedContext`]: a rule.
//! - [`directed`]: its network.
//! - [`directed_leaves_others`], [`directed_is_rewriting`], [`directed_agrees_without_overlap`], [`directed_agrees_on_symbols`]: laws, in the
//!   words of the subject (`specs/Laws.antt`).
#![tactic(auto)]

mod alike;
mod blocks;
mod constraints;
mod directing;
mod keeping;
mod kinds;
mod laws;
mod middles;
mod shapes;
mod turning;

pub use directing::directed;
pub use laws::{
    directed_agrees_on_symbols, directed_agrees_without_overlap, directed_is_rewriting,
    directed_leaves_others,
};
pub use regex_ast::Way;
pub use replace_rules::{LangContext as DirectedContext, LangMap as DirectedMap};

//! The network of rules of replacement (Karttunen, The Replace Operator, 1995; Kempe and Karttunen, Parallel Replacement in Finite
//! State Calculus, 1996). Read `specs/Rules.antt` first: what rules of languages replace. What they relate is then the definition of
//! expr_meaning (`IsRewritten`, specs/Replacement.antt).
//!
//! The construction goes by words of marks (replace_words): first all well-formed ones, and then for each place those that keep what
//! the rules ask there, made small each time (Kaplan and Kay, Regular Models of Phonological Rule Systems, 1994). Symbols that no part
//! of the rules tells from one another are one as long as words of marks are made: the first of them stands for all, and they are
//! put back at the end.
//!
//! - [`LangMap`], [`LangContext`], [`LangGroup`], [`Side`]: rules.
//! - [`replace`]: the network of groups of rules.
//!
//! Languages of words of marks, of which replace_insertions and replace_directed are built, too:
//!
//! - [`every_mark`]: all marks of some symbols and so many places, and the edge of the word.
//! - [`over`]: a language over these letters. [`any`]: all words. [`in_marks`]: the words of a language, each symbol in one mark.
//! - [`left_words`], [`right_words`]: the words before which, or behind which, a context holds.
//! - [`kept_between`]: the words that keep what rules ask of a place.
//! - [`network_of`]: the network of the two sides of the words.
//!
//! Symbols that are one, of which replace_directed is built, too:
//!
//! - [`told_by_group`]: numbers of symbols, which tell apart what mappings and contexts do. [`inside`]: symbols as contexts see them.
//! - [`firsts_in`]: the first symbol of each symbol's class. [`each_once`]: symbols without repetition.
//! - [`network_by_firsts`]: the network of the words of marks of which the words of the firsts are given.
#![tactic(auto)]

mod alike;
mod blocks;
mod constraints;
mod contexts;
mod keeping;
mod langs;
mod letters;
mod network;
mod places;
mod replacing;
mod rows;
mod rules;

pub use alike::{each_once, firsts_in, inside, told_by_group};
pub use constraints::kept_between;
pub use contexts::{left_words, right_words};
pub use langs::{Written, any, in_marks, over};
pub use letters::every_mark;
pub use network::{network_by_firsts, network_of};
pub use replacing::replace;
pub use rules::{LangContext, LangGroup, LangMap, Side};

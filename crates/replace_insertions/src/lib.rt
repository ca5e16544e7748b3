//! The network of an insertion (Karttunen, The Replace Operator, 1995; Kempe and Karttunen, Parallel Replacement in Finite State
//! Calculus, 1996): words of marks (replace_words) hold the upper and the lower word together, with a bracket on each side of what is put
//! in, and those are kept that have what the contexts ask, no two insertions at one place.
//!
//! - [`insert`]: the network of an insertion, by the languages of its parts. Read `specs/Insertions.antt`.
#![tactic(auto)]

mod blocks;
mod filling;
mod gaps;
mod inserting;
mod kinds;

pub use inserting::insert;

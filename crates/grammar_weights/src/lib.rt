//! The weight of a two-level grammar (Koskenniemi, Two-level Morphology, 1983): its feasible pairs, its contexts, and one for each rule.
//!
//! - [`weight_of_grammar`]: the weight, as far as weights are told apart.
//! - [`mapped_weighs`], [`meant_weighs`], [`alike_weighs`]: laws, which tie it to the weight by texts.
//!
//! Read `specs/Weights.antt`.
#![tactic(auto)]

mod counting;
mod definitions;
mod laws;
mod weights;

pub use laws::{alike_weighs, mapped_weighs, meant_weighs};
pub use weights::weight_of_grammar;

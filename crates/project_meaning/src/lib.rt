//! What a project is and what its names mean: definitions, which the contracts of the crates above cite, and their laws.
//! Read `specs/Trees.antt`, `Leaves.antt`, `Projects.antt` and `Meaning.antt`, in this order; then `Settings.antt`,
//! what flags do, `Forms.antt`, `Centres.antt` and `Touched.antt`.
//!
//! The functions do nothing when they run: each names a law, which its contract states.
//!
//! - [`depth_is_enough`], [`names_unfold`]: a name means what its definition relates.
//! - [`kinds_unfold`], [`weights_unfold`]: it has the kind and the weight of its definition.
//! - [`names_may_come_later`]: a name may stand before its definition.
//! - [`nothing_touched`]: between equal projects no name is touched.
//! - [`positive_flags_as_before`]: negative flags change nothing for lexicons that have none.
#![tactic(auto)]

mod laws;

pub use laws::{
    depth_is_enough, kinds_unfold, names_may_come_later, names_unfold, nothing_touched,
    positive_flags_as_before, weights_unfold,
};

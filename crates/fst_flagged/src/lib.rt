//! Transducers whose paths have conditions: flag diacritics that stay in a network, where whoever looks a word up obeys them (Beesley
//! and Karttunen, Finite State Morphology, 2003, chapter 7). A flag that is made states multiplies these, without end where stems set
//! what endings behind compounds test; a flag that stays is one edge. Read `specs/Conditions.antt` and `specs/Flagged.antt` first.
//!
//! - [`Condition`], [`Run`]: a flag of one of the two runs of a path.
//! - [`Flagged`]: a transducer on whose upper side conditions stand among the symbols. [`Flagged::of`] makes it of tapes, [`Flagged::plain`]
//!   of a transducer without conditions, and [`Flagged::resolve`] makes the conditions states, so that none is left.
//! - [`union`], [`compose_below`], [`compose_above`], [`Flagged::inverse`]: operators that keep conditions.
#![tactic(auto)]

mod composing;
mod condition;
mod flagged;
mod images;
mod joining;
mod making;
mod resolving;

pub use composing::{compose_above, compose_below};
pub use condition::{Condition, FIRST, Run};
pub use flagged::Flagged;
pub use joining::union;
pub use making::has_no_conditions;

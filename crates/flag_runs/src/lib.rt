//! Flags that stay in a network, obeyed one after another along a word (Beesley and Karttunen, Finite State Morphology, 2003, chapter 7).
//!
//! - [`Rules`]: what the conditions of a network do, with their features and values by numbers. `specs/Runs.antt` says what a word makes
//!   of values.
//! - [`Values`], [`Behind`]: what the features are behind the conditions of a word, and what one symbol more makes of them.
#![tactic(auto)]

mod rules;
mod values;

pub use rules::Rules;
pub use values::{Behind, Values};

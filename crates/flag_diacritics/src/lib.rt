//! Flag diacritics (Beesley and Karttunen, Finite State Morphology, 2003, chapter 7), resolved into states.
//!
//! - [`Tape`]: a letter of a network with flags: a pair of symbols, or a flag on one of the two sides.
//! - [`resolve`]: the transducer of the pairs on those tapes whose flags pass (`specs/Tapes.antt`). No flag is left in
//!   it, so whoever looks words up needs none. [`resolve_within`] does so where it takes few steps.
//! - [`Action`], [`actions_of`], [`change_by`], [`Setting`]: flags by numbers, and what each does (`specs/Numbers.antt`), for whoever leaves them in
//!   a network.
//! - `idle`: features whose values no later flag tests (`specs/Idle.antt`), which don't tell states apart. `search`: the
//!   states of the result (`specs/Search.antt`), which `tables` numbers.
#![tactic(auto)]

mod actions;
mod changes;
mod idle;
mod resolution;
mod search;
mod setting;
mod tables;
mod tape;

pub use actions::{Action, Actions, actions_of};
pub use changes::{Change, change_by};
pub use resolution::{resolve, resolve_within};
pub use setting::Setting;
pub use tape::Tape;

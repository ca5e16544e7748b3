//! Networks of AT&T text (AT&T FSM Library, the text format of its programs, which those of OpenFst, foma and hfst read and write).
//!
//! - [`read_att`]: the network of a text, or its first fault, an [`AttError`]. `specs/Lines.antt` says what a line says, `specs/Faults.antt`
//!   which fault is the first ([`AttWhy`]), and `specs/Paths.antt` what a text relates.
//! - [`write_att`]: the text of a network, whose states are numbered in the order in which they are found from the start.
//!   `specs/Writing.antt` says how lines are written.
#![tactic(auto)]

mod drawing;
mod faults;
mod fields;
mod reading;
mod states;
mod writing;

pub use faults::{AttError, AttWhy};
pub use reading::read_att;
pub use writing::write_att;

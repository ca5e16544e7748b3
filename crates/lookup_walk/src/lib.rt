//! Networks ready for look-ups, and the walk that takes the paths of a word one after another.
//!
//! - [`Net`]: a network, plain or with conditions on its paths, whose moves are sorted by state and by the symbol that they read, in both
//!   directions. `specs/Nets.antt` says what it relates.
//! - [`Way`]: what a look-up in one direction goes over: a [`Table`] of [`Move`]s at [`Spot`]s, the final states ([`is_final`]), and the rules
//!   of the conditions that the moves write.
//! - [`walked`]: all texts of a word that has few paths, or the finding that the walk was given up.
#![tactic(auto)]

mod finals;
mod kept;
mod moves;
mod net;
mod sorting;
mod table;
mod walk;

pub use finals::is_final;
pub use moves::{Move, Spot};
pub use net::{Net, Way};
pub use table::Table;
pub use walk::walked;

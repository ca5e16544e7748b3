//! Which names a change of a project touches: those whose network may be another one than before.
//!
//! - [`touched`]: the places of the touched names among the new definitions, by two [`Stand`]s of definitions and alphabets.
//! - [`places_before`]: where the names of new definitions stand among old ones. [`same_places`]: where two alphabets have
//!   the same symbol.
//! - [`untouched_names_stay`], [`touch_spreads`]: laws, which the contracts of the crates above cite (`specs/Laws.antt`). The functions do
//!   nothing when they run: each names a law, which its contract states.
//!
//! Where `StandFor said definitions alphabet` (`specs/Touched.antt`) holds of both, the answer is `AreTouched` of the two projects:
//! the places, ascending, at which a definition has a name that is `Touched` (project_meaning), and each such name has its place there.
#![tactic(auto)]

mod bodies;
mod changes;
mod laws;
mod places;
mod stand;
mod texts;

pub use changes::{places_before, same_places, touched};
pub use laws::{touch_spreads, untouched_names_stay};
pub use stand::Stand;

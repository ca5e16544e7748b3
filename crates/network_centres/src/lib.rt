//! Empty centres: whether one of the centres of the rules of replacement in an expression has the empty word, which no network
//! is built of.
//!
//! - [`has_empty_centre`]: the answer, by the networks of the centres.
//! - [`centres`]: the centres in an expression, also of those inside others.
//!
//! What empty centres mean, as laws that the functions' contracts state, which do nothing when they run:
//! - [`empty_centres_unfold`], [`recursion_tells_empty_centres`]: which names have an empty centre, by recursion (`specs/EmptyCentres.antt`).
//! - [`insertion_fills_places`]: what an insertion, whose centre is empty, puts at which places (`specs/Insertions.antt`).
#![tactic(auto)]

mod empty;
mod laws;
mod listing;

pub use empty::has_empty_centre;
pub use laws::{empty_centres_unfold, insertion_fills_places, recursion_tells_empty_centres};
pub use listing::centres;

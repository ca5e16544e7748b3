//! The order in which definitions can be taken that refer to one another, as a graph of places: an order in which each place
//! stands behind all that it refers to, or the first place that reaches itself. `specs/Graph.antt` and `specs/Orders.antt`
//! say what these are.
//!
//! - [`order_of`]: the [`Order`] of places.
#![tactic(auto)]

mod order;
mod reach;
mod visit;

pub use order::{Order, order_of};

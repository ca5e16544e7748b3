//! The network of a definition.
//!
//! - [`build`]: the network of a definition of a plan, over the plan's alphabet, made of the networks of the names in it, which are
//!   its [`Part`]s.
//! - [`BuildError`]: why there is none.
//! - [`Compiled`]: such a network, ready for look-ups.
//! - [`body_expressions`]: the expressions that stand in a definition.
#![tactic(auto)]

mod body;
mod compiled;
mod leaf_symbols;
mod listing;
mod network;
mod symbol_list;
mod symbols;

pub use compiled::{BuildError, Compiled};
pub use listing::body_expressions;
pub use network::build;
pub use network_algebra::Network;
pub use network_expr::Part;

//! What an expression is by its form alone: a language or a relation, whether each operand that must be a language
//! is one, its weight, and whether it can be built.
//!
//! - [`form_of`]: the [`Form`] of an expression: its [`Kind`], whether its operands fit, its weight.
//! - [`are_alike`]: whether a pair `a:b` is of one symbol twice, so that it's a language.
//! - [`is_insertion`]: whether rules are one insertion.
#![tactic(auto)]

mod form;
mod half;
mod insertions;
mod walk;

pub use form::{Form, Kind, MOST_WEIGHT};
pub use half::are_alike;
pub use insertions::is_insertion;
pub use walk::form_of;

//! Which rule of a two-level grammar a string of pairs breaks first, and where (Koskenniemi, Two-level Morphology, 1983). Read
//! `specs/Splits.antt`, `Verdicts.antt` and `Rules.antt`, in this order.
//!
//! - [`test`]: the first rule that a string breaks with the first place at which it does, or that it passes, a [`Verdict`].
//! - [`RuleTests`]: the rules of a grammar, ready to be tried on many strings.
//! - [`keeps_where_unbroken`], [`passing_is_related`]: the laws that a string keeps a rule where it breaks it nowhere, and that
//!   the two sides of a string that passes are related.
//!
//! Inside, each context has two automata (`ready`, which `making` and `ending` make): one runs over the string from its beginning
//! and one from its end (`marks`), and each says at which places its part of the context holds. `spelling` finds the letters of a
//! string, `holding` puts the marks of a rule together, `splits` finds the first place that is bad, and `testing` the first rule.
#![tactic(auto)]

mod ending;
mod holding;
mod laws;
mod letters;
mod making;
mod marks;
mod ready;
mod rule_tests;
mod spelled;
mod spelling;
mod splits;
mod testing;
mod verdict;

pub use laws::{keeps_where_unbroken, passing_is_related};
pub use ready::{ContextTest, RuleTest};
pub use rule_tests::{RuleTests, test};
pub use spelled::Spelled;
pub use verdict::Verdict;

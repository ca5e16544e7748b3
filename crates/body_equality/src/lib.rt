//! Whether the bodies of definitions, over numbers, are the same where each reads its own numbers.
//!
//! - [`Renumbering`]: which numbers the symbols and the names of one project have in another one.
//! - [`same_expr`], [`same_lexicons`], [`same_grammar`]: whether an expression, lexicons or a two-level grammar, with their leaves
//!   renumbered, are other ones. The lines of entries and rules don't matter.
//!
//! Read `specs/Renumbered.antt`, then `specs/RenumberedLexicons.antt` and `specs/RenumberedGrammars.antt`.
#![tactic(auto)]

mod equality;
mod exprs;
mod grammar;
mod lexicons;
mod parts;
mod pieces;
mod renumbering;
mod sets;
mod token;
mod walk;

pub use equality::same_expr;
pub use grammar::same_grammar;
pub use lexicons::same_lexicons;
pub use renumbering::Renumbering;

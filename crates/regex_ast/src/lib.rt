//! Plain types of the sources' syntax trees, their faults and flags.
//!
//! - [`Expr`]: an xfst expression, with [`RuleSet`], [`Group`], [`Directed`], [`Mapping`] and [`Context`] for `->`, `@->` and `=>`;
//!   [`Define`]: a definition of it.
//! - [`Lexicon`], [`Entry`], [`Form`], [`Piece`]: a lexc file. [`FlagOp`]: a flag diacritic.
//! - [`Grammar`], [`TwoLevelRule`], [`PairAtom`]: a twolc file.
//! - [`Raw`], [`Atom`]: what stands at a tree's leaves before and after names are resolved.
//! - [`Why`], [`Fault`], [`ReadError`]: what is wrong with a source, and where.
#![tactic(auto)]

mod expr;
mod fault;
mod lexc;
mod twolc;

pub use expr::{
    Atom, Context, Define, Directed, Expr, Group, Link, Mapping, Prefix, Raw, RuleSet, Side, Step,
    Suffix, Way,
};
pub use fault::{Fault, ReadError, Why};
pub use lexc::{Entry, FlagKind, FlagOp, Form, Lexicon, Piece};
pub use twolc::{Grammar, PairAtom, PairDefine, PairPart, PairSide, RuleKind, SetOf, TwoLevelRule};

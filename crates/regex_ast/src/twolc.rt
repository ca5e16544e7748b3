use crate::expr::{Context, Expr};
use fsm_base::Text;

/// A two-level grammar (Koskenniemi, Two-level Morphology, 1983).
#[derive(Debug, Drop)]
pub struct Grammar<A> {
    /// The pairs of the Alphabet section.
    pub pairs: Vec<PairAtom<A>>,
    /// The sets.
    pub sets: Vec<SetOf<A>>,
    /// The definitions.
    pub definitions: Vec<PairDefine<A>>,
    /// The rules.
    pub rules: Vec<TwoLevelRule<A>>,
}

/// A pair as it is written, which may stand for several pairs.
#[derive(Debug, Drop)]
pub struct PairAtom<A> {
    /// Its upper side.
    pub up: PairSide<A>,
    /// Its lower side.
    pub low: PairSide<A>,
}

/// One side of a pair.
#[derive(Debug, Drop)]
pub enum PairSide<A> {
    /// `0`, nothing.
    Zero,
    /// Anything.
    Any,
    /// One symbol.
    One(A),
    /// A symbol of a set, by the set's name.
    Member(Text),
}

/// A set of symbols.
#[derive(Debug, Drop)]
pub struct SetOf<A> {
    /// The set's name.
    pub name: Text,
    /// Its symbols.
    pub symbols: Vec<A>,
}

/// A definition of a grammar.
#[derive(Debug, Drop)]
pub struct PairDefine<A> {
    /// The defined name.
    pub name: Text,
    /// What it stands for.
    pub expr: Expr<PairPart<A>>,
}

/// A leaf of an expression over pairs.
#[derive(Debug, Drop)]
pub enum PairPart<A> {
    /// A pair.
    Atom(PairAtom<A>),
    /// A definition, or the pairs of a set's symbols with themselves, by its name.
    Named(Text),
}

/// Which strings of pairs a two-level rule keeps.
#[derive(Clone, Copy, Debug, PartialEq, Eq)]
pub enum RuleKind {
    /// `=>`, the pair in these contexts alone.
    Only,
    /// `<=`, in these contexts the upper symbol as this pair alone.
    Must,
    /// `<=>`, both.
    Both,
    /// `/<=`, the pair in none of these contexts.
    Never,
}

/// A rule of a grammar.
#[derive(Debug, Drop)]
pub struct TwoLevelRule<A> {
    /// The rule's name.
    pub name: Text,
    /// The line of its first token, counted from 1.
    pub line: u32,
    /// The pair that it is about.
    pub pair: PairAtom<A>,
    /// What it asks.
    pub kind: RuleKind,
    /// The contexts.
    pub contexts: Vec<Context<PairPart<A>>>,
}

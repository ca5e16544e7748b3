use fsm_base::{Bound, Pair};
use lang_algebra::Lang;
use regex_ast::RuleKind;

/// A context of a two-level rule: what stands before the place and what stands behind it, as languages over the edge of the
/// word and pairs. Their letters, which need not be the same, may be in any order and leave out some of the edge and the grammar's
/// pairs.
#[derive(Drop)]
pub struct PairContext {
    /// It holds where the edge and the string before the place have an end in this language.
    pub left: Lang<Bound<Pair>>,
    /// It holds where the string behind the place and the edge have a beginning in this language.
    pub right: Lang<Bound<Pair>>,
}

/// A two-level rule. Its pair is one of the grammar's, and so is each pair among the letters of its contexts.
#[derive(Drop)]
pub struct LangRule {
    /// The pair that it is about.
    pub pair: Pair,
    /// What it asks.
    pub kind: RuleKind,
    /// The contexts.
    pub contexts: Vec<PairContext>,
}

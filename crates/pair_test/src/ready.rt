use fsa::Dfa;
use fsm_base::{Bound, Pair};
use regex_ast::RuleKind;

/// A context of a rule that is ready to be tried on strings.
#[derive(Drop)]
pub struct ContextTest {
    /// The strings that have an end in the left context.
    pub before: Dfa<Bound<Pair>>,
    /// The strings that, read backwards, have a beginning in the right context.
    pub behind: Dfa<Bound<Pair>>,
}

/// A rule that is ready to be tried on strings.
#[derive(Drop)]
pub struct RuleTest {
    /// The pair that it is about.
    pub pair: Pair,
    /// What it asks.
    pub kind: RuleKind,
    /// Its contexts.
    pub contexts: Vec<ContextTest>,
}

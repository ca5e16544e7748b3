ghost use Rattle.std.specs.Prelude.{IfOk};
ghost use Rattle.grammar_pairs.specs.Plain.{IsFormed, grammar_of};
ghost use Rattle.pair_lines.specs.Ready.{AreRulesOf};

use fsm_base::Pair;
use network_grammars::scope_of;
use regex_ast::{Atom, Grammar};
use std::alloc::{AllocError, Global};
use two_level::LangRule;

/// The feasible pairs of a grammar, and its rules over them.
#[derive(Drop)]
pub struct RulesOf {
    /// The feasible pairs, each once.
    pub pairs: Vec<Pair>,
    /// The rules in their order, with the languages of their contexts.
    pub rules: Vec<LangRule>,
}

/// The rules of a grammar over its feasible pairs. The expressions have the forms that stand in a text, and each rule is about one
/// pair. Each context is built once.
pub fn rules_of(alloc: Global, grammar: &Grammar<Atom>) -> Result<RulesOf, AllocError>
    requires { IsFormed (grammar_of grammar.now) }
    ensures { IfOk result (AreRulesOf grammar.now) }
{
    let scope = scope_of(alloc, grammar)?;
    let rules = network_grammars::rules_of(alloc, &scope, &grammar.rules)?;
    let pairs = Vec::from_slice(alloc, scope.pairs.as_slice())?;
    Ok(RulesOf { pairs, rules })
}

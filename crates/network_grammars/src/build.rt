ghost use Rattle.std.specs.Prelude.{◌≡◌, IfOk, List};
ghost use Rattle.fsm_base.specs.declared.letters.Sym.{Sym};
ghost use Rattle.expr_kinds.specs.declared.form.Kind.{Kind};
ghost use Rattle.grammar_pairs.specs.Plain.{IsFormed, grammar_of};
ghost use Rattle.network_algebra.specs.Networks.{IsNetwork, kind_of_network};
ghost use Rattle.network_grammars.specs.Meaning.{IsNetworkOf, IsOverSymbols};

use crate::definitions::scope_of;
use crate::rules::rules_of;
use network_algebra::{Network, reduced};
use regex_ast::{Atom, Grammar};
use std::alloc::{AllocError, Global};
use two_level::grammar_is_spelled;

/// The network of a grammar: what its rules allow of strings of its feasible pairs. The expressions have the forms that stand in a
/// text, and each rule is about one pair. Each definition is built once.
pub fn network_of_grammar(alloc: Global, grammar: &Grammar<Atom>) -> Result<Network, AllocError>
    requires { IsFormed (grammar_of grammar.now) }
    ensures letters { IfOk result (λ n. (symbols : List Sym) → IsOverSymbols symbols grammar.now → IsNetwork symbols n) }
    ensures kind { IfOk result (λ n. kind_of_network n ≡ Kind.Relation) }
    ensures meaning { IfOk result (IsNetworkOf grammar.now) }
{
    // A law: by the numbers of symbols a grammar relates what it does by their texts.
    grammar_is_spelled();
    let scope = scope_of(alloc, grammar)?;
    let rules = rules_of(alloc, &scope, &grammar.rules)?;
    let pairs = two_level::grammar(alloc, scope.pairs.as_slice(), &rules)?;
    reduced(alloc, &Network::Pairs(pairs))
}

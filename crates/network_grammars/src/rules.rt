ghost use Rattle.std.specs.Prelude.{◌≡◌, ◌∷◌, [], All, IfOk, map};
ghost use Rattle.grammar_pairs.specs.Feasible.{of_atom};
ghost use Rattle.grammar_pairs.specs.Plain.{ContextsArePairForms, IsFormedRule, IsNamedSide, contexts_in, pair_of, rule_of};
ghost use Rattle.network_grammars.specs.Rules.{IsContextOf, IsRuleOf, Pairwise};
ghost use Rattle.network_grammars.specs.PairMeaning.{IsScope};

use crate::languages::language_of;
use crate::scope::Scope;
use fsm_base::Pair;
use grammar_pairs::written;
use regex_ast::{Atom, Context, PairAtom, PairPart, TwoLevelRule};
use std::alloc::{AllocError, Global};
use two_level::{LangRule, PairContext};

/// The pair that an atom names, both of whose sides name one symbol or none.
fn centre(atom: &PairAtom<Atom>) -> Pair
    requires up { IsNamedSide (pair_of atom.now).up }
    requires low { IsNamedSide (pair_of atom.now).low }
    ensures { of_atom atom.now ≡ result ∷ [] }
{
    match written(atom) {
        Some(pair) => pair,
        None => unreachable!(),
    }
}

/// The languages of contexts.
fn contexts_of(
    alloc: Global,
    scope: &Scope,
    contexts: &[Context<PairPart<Atom>>],
) -> Result<Vec<PairContext>, AllocError>
    requires scope { IsScope scope.now }
    requires forms { ContextsArePairForms (contexts_in contexts.now) }
    ensures { IfOk result (λ built. Pairwise (IsContextOf scope.now) contexts.now built.items) }
{
    let mut built = Vec::new(alloc);
    'contexts: for context in contexts {
        built.push(PairContext {
            left: language_of(alloc, scope, &context.left)?,
            right: language_of(alloc, scope, &context.right)?,
        })?;
    }
    Ok(built)
}

/// The rules of a grammar, by the languages of their contexts.
pub fn rules_of(
    alloc: Global,
    scope: &Scope,
    rules: &[TwoLevelRule<Atom>],
) -> Result<Vec<LangRule>, AllocError>
    requires scope { IsScope scope.now }
    requires forms { All IsFormedRule (map rule_of rules.now) }
    ensures { IfOk result (λ built. Pairwise (IsRuleOf scope.now) rules.now built.items) }
{
    let mut built = Vec::new(alloc);
    'rules: for rule in rules {
        built.push(LangRule {
            pair: centre(&rule.pair),
            kind: rule.kind,
            contexts: contexts_of(alloc, scope, &rule.contexts)?,
        })?;
    }
    Ok(built)
}

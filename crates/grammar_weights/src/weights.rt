ghost use Rattle.std.specs.Prelude.{◌≡◌, ◌+◌, IfOk, List, map, sum_by};
ghost use Rattle.regex_ast.specs.declared.expr.Atom.{Atom as Leaf};
ghost use Rattle.expr_kinds.specs.Forms.{capped};
ghost use Rattle.expr_kinds.specs.Weights.{weight_of_contexts};
ghost use Rattle.project_meaning.specs.Trees.{PairDefinition};
ghost use Rattle.grammar_pairs.specs.Plain.{contexts_in, grammar_of, rule_of};
ghost use Rattle.grammar_weights.specs.Weighed.{IsWeighed};
ghost use Rattle.grammar_weights.specs.Weights.{grammar_weight, is_same_symbol, part_weight, rule_weight};

use crate::counting::count_pairs;
use crate::definitions::{Weighed, weigh, weight_in};
use expr_kinds::Form;
use regex_ast::{Atom, Context, Grammar, PairPart, TwoLevelRule};
use std::alloc::{AllocError, Global};

/// Two weights together, as far as weights are told apart.
fn together(first: usize, second: usize) -> usize
    ensures { result ≡ capped (first + second) }
{
    Form::leaf(first).heavier(second).weight
}

/// What contexts weigh below these definitions.
fn contexts_weight(
    alloc: Global,
    weighed: &Weighed,
    contexts: &[Context<PairPart<Atom>>],
) -> Result<usize, AllocError>
    ensures { IfOk result (λ weight. (above : List (PairDefinition Leaf)) → IsWeighed weighed.now above → weight ≡ capped (weight_of_contexts (part_weight above) (contexts_in contexts.now))) }
{
    let mut weight = 0;
    'contexts: for context in contexts {
        let left = weight_in(alloc, weighed, &context.left)?;
        let right = weight_in(alloc, weighed, &context.right)?;
        weight = together(weight, together(left, right));
    }
    Ok(weight)
}

/// What rules weigh below these definitions: their contexts, and one for each.
fn rules_weight(
    alloc: Global,
    weighed: &Weighed,
    rules: &[TwoLevelRule<Atom>],
) -> Result<usize, AllocError>
    ensures { IfOk result (λ weight. (above : List (PairDefinition Leaf)) → IsWeighed weighed.now above → weight ≡ capped (sum_by (rule_weight above) (map rule_of rules.now))) }
{
    let mut weight = 0;
    'rules: for rule in rules {
        let contexts = contexts_weight(alloc, weighed, &rule.contexts)?;
        weight = together(weight, together(contexts, 1));
    }
    Ok(weight)
}

/// The weight of a grammar, or 4,000,001 where it is more: its feasible pairs, each once, its contexts, and one for each rule.
pub fn weight_of_grammar(alloc: Global, grammar: &Grammar<Atom>) -> Result<usize, AllocError>
    ensures { IfOk result (λ weight. weight ≡ capped (grammar_weight is_same_symbol (grammar_of grammar.now))) }
{
    let pairs = count_pairs(alloc, grammar)?;
    let weighed = weigh(alloc, &grammar.definitions)?;
    let rules = rules_weight(alloc, &weighed, &grammar.rules)?;
    Ok(together(pairs, rules))
}

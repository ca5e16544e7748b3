ghost use Rattle.std.specs.Prelude.{◌≡◌, ◌↔◌, IfOk, IsTrue, map};
ghost use Rattle.body_equality.specs.Renumbered.{renumbered};
ghost use Rattle.grammar_pairs.specs.Mapped.{mapped_grammar};
ghost use Rattle.grammar_pairs.specs.Plain.{definition_of, grammar_of, pair_of, rule_of};
ghost use Rattle.body_equality.specs.RenumberedGrammars.{IsSameHead, renumbered_definition, renumbered_rule};

use crate::exprs::{same_contexts, same_term};
use crate::parts::{same_pair, same_pairs, same_text};
use crate::renumbering::Renumbering;
use crate::sets::same_sets;
use regex_ast::{Atom, Grammar, PairDefine, TwoLevelRule};
use std::alloc::{AllocError, Global};

/// Whether a definition, renumbered, is another one.
fn same_definition(
    alloc: Global,
    other: &PairDefine<Atom>,
    definition: &PairDefine<Atom>,
    numbers: &Renumbering,
) -> Result<bool, AllocError>
    ensures { IfOk result (λ same. IsTrue same ↔ (definition_of other.now ≡ renumbered_definition numbers.now definition.now)) }
{
    if !same_text(&other.name, &definition.name) {
        return Ok(false);
    }
    same_term(alloc, &other.expr, &definition.expr, numbers)
}

/// Whether definitions, renumbered, are other ones.
fn same_definitions(
    alloc: Global,
    others: &[PairDefine<Atom>],
    definitions: &[PairDefine<Atom>],
    numbers: &Renumbering,
) -> Result<bool, AllocError>
    ensures { IfOk result (λ same. IsTrue same ↔ (map definition_of others.now ≡ map (renumbered_definition numbers.now) definitions.now)) }
{
    if others.len() != definitions.len() {
        return Ok(false);
    }
    'places: for place in 0..definitions.len() {
        if !same_definition(alloc, &others[place], &definitions[place], numbers)? {
            return Ok(false);
        }
    }
    Ok(true)
}

/// Whether a rule's name, kind and pair, renumbered, are those of another one.
fn same_head(other: &TwoLevelRule<Atom>, rule: &TwoLevelRule<Atom>, numbers: &Renumbering) -> bool
    ensures { IsTrue result ↔ IsSameHead numbers.now other.now rule.now }
{
    same_text(&other.name, &rule.name)
        && other.kind == rule.kind
        && same_pair(&other.pair, &rule.pair, numbers)
}

/// Whether a rule, renumbered, is another one, whatever their lines are.
fn same_rule(
    alloc: Global,
    other: &TwoLevelRule<Atom>,
    rule: &TwoLevelRule<Atom>,
    numbers: &Renumbering,
) -> Result<bool, AllocError>
    ensures { IfOk result (λ same. IsTrue same ↔ (rule_of other.now ≡ renumbered_rule numbers.now rule.now)) }
{
    if !same_head(other, rule, numbers) {
        return Ok(false);
    }
    same_contexts(alloc, &other.contexts, &rule.contexts, numbers)
}

/// Whether rules, renumbered, are other ones.
fn same_rules(
    alloc: Global,
    others: &[TwoLevelRule<Atom>],
    rules: &[TwoLevelRule<Atom>],
    numbers: &Renumbering,
) -> Result<bool, AllocError>
    ensures { IfOk result (λ same. IsTrue same ↔ (map rule_of others.now ≡ map (renumbered_rule numbers.now) rules.now)) }
{
    if others.len() != rules.len() {
        return Ok(false);
    }
    'places: for place in 0..rules.len() {
        if !same_rule(alloc, &others[place], &rules[place], numbers)? {
            return Ok(false);
        }
    }
    Ok(true)
}

/// Whether a grammar, with its leaves renumbered, is another one, whatever the lines of their rules are. Time and memory are
/// linear in their sizes.
pub fn same_grammar(
    alloc: Global,
    other: &Grammar<Atom>,
    grammar: &Grammar<Atom>,
    numbers: &Renumbering,
) -> Result<bool, AllocError>
    ensures { IfOk result (λ same. IsTrue same ↔ (grammar_of other.now ≡ mapped_grammar (renumbered numbers.now) (grammar_of grammar.now))) }
{
    if !same_pairs(&other.pairs, &grammar.pairs, numbers) {
        return Ok(false);
    }
    if !same_sets(&other.sets, &grammar.sets, numbers) {
        return Ok(false);
    }
    if !same_definitions(alloc, &other.definitions, &grammar.definitions, numbers)? {
        return Ok(false);
    }
    same_rules(alloc, &other.rules, &grammar.rules, numbers)
}

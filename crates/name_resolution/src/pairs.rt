ghost use Rattle.std.specs.Prelude.{◌≡◌, ◌++◌, IfOk, OnOk, map};
ghost use Rattle.std.specs.List.{flat_map};
ghost use Rattle.expr_leaves.specs.Leaves.{listed, listed_contexts, seen};
ghost use Rattle.expr_leaves.specs.Mapped.{mapped, mapped_contexts};
ghost use Rattle.name_resolution.specs.Leaves.{pairs_behind, pairs_below, pairs_in_definition, pairs_in_part, pairs_in_rule};
ghost use Rattle.grammar_pairs.specs.Plain.{definition_of, grammar_of, part_of, rule_of};
ghost use Rattle.regex_ast.specs.Terms.{contexts_of, term};

use expr_leaves::leaves;
use regex_ast::{Context, Expr, Grammar, PairAtom, PairDefine, PairPart, TwoLevelRule};
use std::alloc::{AllocError, Global};

/// Adds the pair that a part is, if it is one.
fn add_part<'a, A>(
    part: &'a PairPart<A>,
    found: &mut Vec<&'a PairAtom<A>>,
) -> Result<(), AllocError>
    ensures { OnOk result (pairs_behind found.new.items ≡ pairs_behind found.old.items ++ pairs_in_part (part_of part.now)) }
{
    match part {
        PairPart::Atom(pair) => {
            found.push(pair)?;
            Ok(())
        }
        PairPart::Named(_) => Ok(()),
    }
}

/// Adds the pairs among parts.
fn add_parts<'a, A>(
    parts: &[&'a PairPart<A>],
    found: &mut Vec<&'a PairAtom<A>>,
) -> Result<(), AllocError>
    ensures { OnOk result (pairs_behind found.new.items ≡ pairs_behind found.old.items ++ flat_map pairs_in_part (map part_of (seen parts.now))) }
{
    'parts: for part in parts {
        add_part(*part, found)?;
    }
    Ok(())
}

/// Adds the pairs that stand in an expression.
fn add_expression<'a, A>(
    alloc: Global,
    expr: &'a Expr<PairPart<A>>,
    found: &mut Vec<&'a PairAtom<A>>,
) -> Result<(), AllocError>
    ensures { OnOk result (pairs_behind found.new.items ≡ pairs_behind found.old.items ++ listed pairs_in_part (mapped part_of (term expr.now))) }
{
    add_parts(&leaves(alloc, expr)?, found)?;
    Ok(())
}

/// Adds the pairs that stand in definitions.
fn add_definitions<'a, A>(
    alloc: Global,
    definitions: &'a [PairDefine<A>],
    found: &mut Vec<&'a PairAtom<A>>,
) -> Result<(), AllocError>
    ensures { OnOk result (pairs_behind found.new.items ≡ pairs_behind found.old.items ++ flat_map pairs_in_definition (map definition_of definitions.now)) }
{
    'definitions: for definition in definitions {
        add_expression(alloc, &definition.expr, found)?;
    }
    Ok(())
}

/// Adds the pairs that stand in a context.
fn add_context<'a, A>(
    alloc: Global,
    context: &'a Context<PairPart<A>>,
    found: &mut Vec<&'a PairAtom<A>>,
) -> Result<(), AllocError>
    ensures { OnOk result (pairs_behind found.new.items ≡ pairs_behind found.old.items ++ (listed pairs_in_part (mapped part_of (term context.now.left)) ++ listed pairs_in_part (mapped part_of (term context.now.right)))) }
{
    add_expression(alloc, &context.left, found)?;
    add_expression(alloc, &context.right, found)
}

/// Adds the pairs that stand in contexts.
fn add_contexts<'a, A>(
    alloc: Global,
    contexts: &'a [Context<PairPart<A>>],
    found: &mut Vec<&'a PairAtom<A>>,
) -> Result<(), AllocError>
    ensures { OnOk result (pairs_behind found.new.items ≡ pairs_behind found.old.items ++ listed_contexts pairs_in_part (mapped_contexts part_of (contexts_of contexts.now))) }
{
    'contexts: for context in contexts {
        add_context(alloc, context, found)?;
    }
    Ok(())
}

/// Adds the pair of a rule, and those that stand in its contexts.
fn add_rule<'a, A>(
    alloc: Global,
    rule: &'a TwoLevelRule<A>,
    found: &mut Vec<&'a PairAtom<A>>,
) -> Result<(), AllocError>
    ensures { OnOk result (pairs_behind found.new.items ≡ pairs_behind found.old.items ++ pairs_in_rule (rule_of rule.now)) }
{
    found.push(&rule.pair)?;
    add_contexts(alloc, &rule.contexts, found)
}

/// Adds the pairs of rules.
fn add_rules<'a, A>(
    alloc: Global,
    rules: &'a [TwoLevelRule<A>],
    found: &mut Vec<&'a PairAtom<A>>,
) -> Result<(), AllocError>
    ensures { OnOk result (pairs_behind found.new.items ≡ pairs_behind found.old.items ++ flat_map pairs_in_rule (map rule_of rules.now)) }
{
    'rules: for rule in rules {
        add_rule(alloc, rule, found)?;
    }
    Ok(())
}

/// The pairs that stand in the definitions and the rules of a grammar, in the order of their places.
pub fn pairs_below<A>(alloc: Global, grammar: &Grammar<A>) -> Result<Vec<&PairAtom<A>>, AllocError>
    ensures { IfOk result (λ found. pairs_behind found.items ≡ pairs_below (grammar_of grammar.now)) }
{
    let mut found = Vec::new(alloc);
    add_definitions(alloc, &grammar.definitions, &mut found)?;
    add_rules(alloc, &grammar.rules, &mut found)?;
    Ok(found)
}

ghost use Rattle.std.specs.Prelude.{◌≡◌, ◌↔◌, ◌⊎◌, Contains, IfOk, OnOk};
ghost use Rattle.std.specs.List.{flat_map};
ghost use Rattle.std.specs.Option.{option_to_list};
ghost use Rattle.fsm_base.specs.declared.letters.Pair.{Pair as Letter};
ghost use Rattle.expr_leaves.specs.Leaves.{seen};
ghost use Rattle.grammar_pairs.specs.Feasible.{feasible, named_side, of_atom, of_context, of_definition, of_expression, of_part, of_rule, written_pair};
ghost use Rattle.grammar_pairs.specs.Plain.{pair_of, side_of};

use crate::symbol_set::symbol_of;
use expr_leaves::leaves;
use fsm_base::{Pair, Sym};
use indexmap::IndexSet;
use regex_ast::{
    Atom, Context, Expr, Grammar, PairAtom, PairDefine, PairPart, PairSide, TwoLevelRule,
};
use std::alloc::{AllocError, Global};

/// The symbol, or none, that a side names; `None` where it names not just one.
fn named_side(side: &PairSide<Atom>) -> Option<Option<Sym>>
    ensures { option_to_list result ≡ named_side (side_of side.now) }
{
    match side {
        PairSide::Zero => Some(None),
        PairSide::One(leaf) => Some(Some(symbol_of(*leaf))),
        PairSide::Any | PairSide::Member(_) => None,
    }
}

/// The pair that an atom names, if both of its sides name one symbol or none.
pub fn written(atom: &PairAtom<Atom>) -> Option<Pair>
    ensures { option_to_list result ≡ written_pair (pair_of atom.now) }
{
    match (named_side(&atom.up), named_side(&atom.low)) {
        (Some(up), Some(low)) => Some(Pair { up, low }),
        _ => None,
    }
}

/// Adds the pair that an atom names, if it does.
fn add_atom(atom: &PairAtom<Atom>, pairs: &mut IndexSet<Pair>) -> Result<(), AllocError>
    ensures { OnOk result ((x : Letter) → Contains pairs.new.keys x ↔ (Contains pairs.old.keys x ⊎ Contains (of_atom atom.now) x)) }
{
    if let Some(pair) = written(atom) {
        pairs.insert(pair)?;
    }
    Ok(())
}

/// Adds the pair that a leaf names, if it does.
fn add_part(part: &PairPart<Atom>, pairs: &mut IndexSet<Pair>) -> Result<(), AllocError>
    ensures { OnOk result ((x : Letter) → Contains pairs.new.keys x ↔ (Contains pairs.old.keys x ⊎ Contains (of_part part.now) x)) }
{
    match part {
        PairPart::Atom(atom) => add_atom(atom, pairs),
        PairPart::Named(_) => Ok(()),
    }
}

/// Adds the pairs that leaves name.
fn add_parts(parts: &[&PairPart<Atom>], pairs: &mut IndexSet<Pair>) -> Result<(), AllocError>
    ensures { OnOk result ((x : Letter) → Contains pairs.new.keys x ↔ (Contains pairs.old.keys x ⊎ Contains (flat_map of_part (seen parts.now)) x)) }
{
    'parts: for part in parts {
        add_part(part, pairs)?;
    }
    Ok(())
}

/// Adds the pairs that stand in an expression.
fn add_expression(
    alloc: Global,
    expr: &Expr<PairPart<Atom>>,
    pairs: &mut IndexSet<Pair>,
) -> Result<(), AllocError>
    ensures { OnOk result ((x : Letter) → Contains pairs.new.keys x ↔ (Contains pairs.old.keys x ⊎ Contains (of_expression expr.now) x)) }
{
    let parts = leaves(alloc, expr)?;
    add_parts(&parts, pairs)
}

/// Adds the pairs that stand in a context.
fn add_context(
    alloc: Global,
    context: &Context<PairPart<Atom>>,
    pairs: &mut IndexSet<Pair>,
) -> Result<(), AllocError>
    ensures { OnOk result ((x : Letter) → Contains pairs.new.keys x ↔ (Contains pairs.old.keys x ⊎ Contains (of_context context.now) x)) }
{
    add_expression(alloc, &context.left, pairs)?;
    add_expression(alloc, &context.right, pairs)
}

/// Adds the pairs that stand in contexts.
fn add_contexts(
    alloc: Global,
    contexts: &[Context<PairPart<Atom>>],
    pairs: &mut IndexSet<Pair>,
) -> Result<(), AllocError>
    ensures { OnOk result ((x : Letter) → Contains pairs.new.keys x ↔ (Contains pairs.old.keys x ⊎ Contains (flat_map of_context contexts.now) x)) }
{
    'contexts: for context in contexts {
        add_context(alloc, context, pairs)?;
    }
    Ok(())
}

/// Adds the pair of a rule, and those that stand in its contexts.
fn add_rule(
    alloc: Global,
    rule: &TwoLevelRule<Atom>,
    pairs: &mut IndexSet<Pair>,
) -> Result<(), AllocError>
    ensures { OnOk result ((x : Letter) → Contains pairs.new.keys x ↔ (Contains pairs.old.keys x ⊎ Contains (of_rule rule.now) x)) }
{
    add_atom(&rule.pair, pairs)?;
    add_contexts(alloc, &rule.contexts, pairs)
}

/// Adds the pairs that atoms name.
fn add_atoms(atoms: &[PairAtom<Atom>], pairs: &mut IndexSet<Pair>) -> Result<(), AllocError>
    ensures { OnOk result ((x : Letter) → Contains pairs.new.keys x ↔ (Contains pairs.old.keys x ⊎ Contains (flat_map of_atom atoms.now) x)) }
{
    'atoms: for atom in atoms {
        add_atom(atom, pairs)?;
    }
    Ok(())
}

/// Adds the pairs that stand in definitions.
fn add_definitions(
    alloc: Global,
    definitions: &[PairDefine<Atom>],
    pairs: &mut IndexSet<Pair>,
) -> Result<(), AllocError>
    ensures { OnOk result ((x : Letter) → Contains pairs.new.keys x ↔ (Contains pairs.old.keys x ⊎ Contains (flat_map of_definition definitions.now) x)) }
{
    'definitions: for definition in definitions {
        add_expression(alloc, &definition.expr, pairs)?;
    }
    Ok(())
}

/// Adds the pairs of rules.
fn add_rules(
    alloc: Global,
    rules: &[TwoLevelRule<Atom>],
    pairs: &mut IndexSet<Pair>,
) -> Result<(), AllocError>
    ensures { OnOk result ((x : Letter) → Contains pairs.new.keys x ↔ (Contains pairs.old.keys x ⊎ Contains (flat_map of_rule rules.now) x)) }
{
    'rules: for rule in rules {
        add_rule(alloc, rule, pairs)?;
    }
    Ok(())
}

/// The feasible pairs of a grammar, each once.
pub fn feasible_pairs(alloc: Global, grammar: &Grammar<Atom>) -> Result<IndexSet<Pair>, AllocError>
    ensures { IfOk result (λ pairs. (x : Letter) → Contains pairs.keys x ↔ Contains (feasible grammar.now) x) }
{
    let mut pairs = IndexSet::new(alloc);
    add_atoms(&grammar.pairs, &mut pairs)?;
    add_definitions(alloc, &grammar.definitions, &mut pairs)?;
    add_rules(alloc, &grammar.rules, &mut pairs)?;
    Ok(pairs)
}

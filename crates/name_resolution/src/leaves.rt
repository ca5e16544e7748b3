ghost use Rattle.std.specs.Prelude.{◌≡◌, ◌++◌, IfOk, OnOk, map};
ghost use Rattle.std.specs.List.{flat_map};
ghost use Rattle.expr_leaves.specs.Leaves.{seen};
ghost use Rattle.name_resolution.specs.Leaves.{leaves_in, leaves_in_pair, leaves_in_side, pairs_behind};
ghost use Rattle.grammar_pairs.specs.Plain.{grammar_of, pair_of, set_of, side_of};

use crate::pairs::pairs_below;
use regex_ast::{Grammar, PairAtom, PairSide, SetOf};
use std::alloc::{AllocError, Global};

/// Adds the leaf of a side, if it has one.
fn add_side<'a, A>(side: &'a PairSide<A>, found: &mut Vec<&'a A>) -> Result<(), AllocError>
    ensures { OnOk result (seen found.new.items ≡ seen found.old.items ++ leaves_in_side (side_of side.now)) }
{
    match side {
        PairSide::One(leaf) => {
            found.push(leaf)?;
            Ok(())
        }
        PairSide::Zero => Ok(()),
        PairSide::Any => Ok(()),
        PairSide::Member(_) => Ok(()),
    }
}

/// Adds the leaves of a pair.
fn add_pair<'a, A>(pair: &'a PairAtom<A>, found: &mut Vec<&'a A>) -> Result<(), AllocError>
    ensures { OnOk result (seen found.new.items ≡ seen found.old.items ++ leaves_in_pair (pair_of pair.now)) }
{
    add_side(&pair.up, found)?;
    add_side(&pair.low, found)
}

/// Adds the leaves of pairs.
fn add_pairs<'a, A>(pairs: &'a [PairAtom<A>], found: &mut Vec<&'a A>) -> Result<(), AllocError>
    ensures { OnOk result (seen found.new.items ≡ seen found.old.items ++ flat_map leaves_in_pair (map pair_of pairs.now)) }
{
    'pairs: for pair in pairs {
        add_pair(pair, found)?;
    }
    Ok(())
}

/// Adds the leaves of pairs, by references to them.
fn add_each<'a, A>(pairs: &[&'a PairAtom<A>], found: &mut Vec<&'a A>) -> Result<(), AllocError>
    ensures { OnOk result (seen found.new.items ≡ seen found.old.items ++ flat_map leaves_in_pair (pairs_behind pairs.now)) }
{
    'pairs: for pair in pairs {
        add_pair(*pair, found)?;
    }
    Ok(())
}

/// Adds symbols.
fn add_symbols<'a, A>(symbols: &'a [A], found: &mut Vec<&'a A>) -> Result<(), AllocError>
    ensures { OnOk result (seen found.new.items ≡ seen found.old.items ++ symbols.now) }
{
    'symbols: for symbol in symbols {
        found.push(symbol)?;
    }
    Ok(())
}

/// Adds the symbols of sets.
fn add_sets<'a, A>(sets: &'a [SetOf<A>], found: &mut Vec<&'a A>) -> Result<(), AllocError>
    ensures { OnOk result (seen found.new.items ≡ seen found.old.items ++ flat_map (λ s. s.symbols) (map set_of sets.now)) }
{
    'sets: for set in sets {
        add_symbols(&set.symbols, found)?;
    }
    Ok(())
}

/// The leaves that stand in a grammar, in the order of their places: its pairs, its sets, its definitions and its rules.
pub fn grammar_leaves<A>(alloc: Global, grammar: &Grammar<A>) -> Result<Vec<&A>, AllocError>
    ensures { IfOk result (λ found. seen found.items ≡ leaves_in (grammar_of grammar.now)) }
{
    let mut found = Vec::new(alloc);
    add_pairs(&grammar.pairs, &mut found)?;
    add_sets(&grammar.sets, &mut found)?;
    add_each(&pairs_below(alloc, grammar)?, &mut found)?;
    Ok(found)
}

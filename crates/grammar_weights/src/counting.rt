ghost use Rattle.std.specs.Prelude.{◌≡◌, IfOk, OnOk, map};
ghost use Rattle.std.specs.Option.{option_to_list};
ghost use Rattle.std.specs.List.{flat_map};
ghost use Rattle.grammar_pairs.specs.Plain.{grammar_of, pair_of, side_of};
ghost use Rattle.name_resolution.specs.Leaves.{pairs_behind};
ghost use Rattle.grammar_weights.specs.Counting.{all_added, kept};
ghost use Rattle.grammar_weights.specs.Weights.{count_once, feasible, is_same_symbol, named_side, written_pair};

use indexmap::IndexSet;
use name_resolution::pairs_below;
use regex_ast::{Atom, Grammar, PairAtom, PairSide};
use std::alloc::{AllocError, Global};

/// A feasible pair by its leaves, either of which may be nothing.
#[derive(Clone, Copy, Debug, PartialEq, Eq, Hash)]
pub(crate) struct Written {
    /// The leaf on the upper side.
    pub(crate) up: Option<Atom>,
    /// The leaf on the lower side.
    pub(crate) low: Option<Atom>,
}

/// The leaf, or none, that a side names; `None` where it names not just one.
fn named_side(side: &PairSide<Atom>) -> Option<Option<Atom>>
    ensures { option_to_list result ≡ named_side (side_of side.now) }
{
    match side {
        PairSide::Zero => Some(None),
        PairSide::One(leaf) => Some(Some(*leaf)),
        PairSide::Any | PairSide::Member(_) => None,
    }
}

/// The pair that an atom names, if both of its sides name one leaf or none.
fn pair_named(atom: &PairAtom<Atom>) -> Option<Written>
    ensures { option_to_list result ≡ map kept (written_pair (pair_of atom.now)) }
{
    match (named_side(&atom.up), named_side(&atom.low)) {
        (Some(up), Some(low)) => Some(Written { up, low }),
        _ => None,
    }
}

/// Adds the pair that an atom names, if it does.
fn add_pair(atom: &PairAtom<Atom>, pairs: &mut IndexSet<Written>) -> Result<(), AllocError>
    ensures { OnOk result (pairs.new.keys ≡ all_added pairs.old.keys (map kept (written_pair (pair_of atom.now)))) }
{
    if let Some(pair) = pair_named(atom) {
        pairs.insert(pair)?;
    }
    Ok(())
}

/// Adds the pairs that atoms name.
fn add_pairs(atoms: &[PairAtom<Atom>], pairs: &mut IndexSet<Written>) -> Result<(), AllocError>
    ensures { OnOk result (pairs.new.keys ≡ all_added pairs.old.keys (map kept (flat_map written_pair (map pair_of atoms.now)))) }
{
    'atoms: for atom in atoms {
        add_pair(atom, pairs)?;
    }
    Ok(())
}

/// Adds the pairs that atoms behind references name.
fn add_each(atoms: &[&PairAtom<Atom>], pairs: &mut IndexSet<Written>) -> Result<(), AllocError>
    ensures { OnOk result (pairs.new.keys ≡ all_added pairs.old.keys (map kept (flat_map written_pair (pairs_behind atoms.now)))) }
{
    'atoms: for atom in atoms {
        add_pair(*atom, pairs)?;
    }
    Ok(())
}

/// How many feasible pairs a grammar has.
pub(crate) fn count_pairs(alloc: Global, grammar: &Grammar<Atom>) -> Result<usize, AllocError>
    ensures { IfOk result (λ count. count ≡ count_once is_same_symbol (feasible (grammar_of grammar.now))) }
{
    let mut pairs = IndexSet::new(alloc);
    add_pairs(&grammar.pairs, &mut pairs)?;
    add_each(&pairs_below(alloc, grammar)?, &mut pairs)?;
    Ok(pairs.len())
}

ghost use Rattle.std.specs.Prelude.{◌≡◌, ◌↔◌, IsTrue, map};
ghost use Rattle.body_equality.specs.Renumbered.{renumbered};
ghost use Rattle.grammar_pairs.specs.Plain.{set_of};
ghost use Rattle.body_equality.specs.RenumberedGrammars.{renumbered_set};

use crate::parts::same_text;
use crate::renumbering::Renumbering;
use regex_ast::{Atom, SetOf};

/// Whether symbols, renumbered, are other ones.
fn same_symbols(others: &[Atom], symbols: &[Atom], numbers: &Renumbering) -> bool
    ensures { IsTrue result ↔ (others.now ≡ map (renumbered numbers.now) symbols.now) }
{
    if others.len() != symbols.len() {
        return false;
    }
    'places: for place in 0..symbols.len() {
        if !numbers.same_leaf(others[place], symbols[place]) {
            return false;
        }
    }
    true
}

/// Whether a set, renumbered, is another one.
fn same_set(other: &SetOf<Atom>, set: &SetOf<Atom>, numbers: &Renumbering) -> bool
    ensures { IsTrue result ↔ (set_of other.now ≡ renumbered_set numbers.now set.now) }
{
    same_text(&other.name, &set.name) && same_symbols(&other.symbols, &set.symbols, numbers)
}

/// Whether sets, renumbered, are other ones.
pub(crate) fn same_sets(others: &[SetOf<Atom>], sets: &[SetOf<Atom>], numbers: &Renumbering) -> bool
    ensures { IsTrue result ↔ (map set_of others.now ≡ map (renumbered_set numbers.now) sets.now) }
{
    if others.len() != sets.len() {
        return false;
    }
    'places: for place in 0..sets.len() {
        if !same_set(&others[place], &sets[place], numbers) {
            return false;
        }
    }
    true
}

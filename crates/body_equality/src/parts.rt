ghost use Rattle.std.specs.Prelude.{◌≡◌, ◌↔◌, IsTrue, map};
ghost use Rattle.grammar_pairs.specs.Plain.{pair_of, part_of, side_of};
ghost use Rattle.body_equality.specs.RenumberedGrammars.{part_behind, renumbered_behind, renumbered_pair, renumbered_part, renumbered_side};

use crate::renumbering::Renumbering;
use fsm_base::Text;
use regex_ast::{Atom, PairAtom, PairPart, PairSide};

/// Whether two texts are the same.
pub(crate) fn same_text(other: &Text, text: &Text) -> bool
    ensures { IsTrue result ↔ (other.now ≡ text.now) }
{
    other.as_str() == text.as_str()
}

/// Whether a side, renumbered, is another one.
fn same_side(other: &PairSide<Atom>, side: &PairSide<Atom>, numbers: &Renumbering) -> bool
    ensures { IsTrue result ↔ (side_of other.now ≡ renumbered_side numbers.now side.now) }
{
    match (other, side) {
        (PairSide::Zero, PairSide::Zero) => true,
        (PairSide::Any, PairSide::Any) => true,
        (PairSide::One(other), PairSide::One(leaf)) => numbers.same_leaf(*other, *leaf),
        (PairSide::Member(other), PairSide::Member(set)) => same_text(other, set),
        _ => false,
    }
}

/// Whether a pair, renumbered, is another one.
pub(crate) fn same_pair(
    other: &PairAtom<Atom>,
    pair: &PairAtom<Atom>,
    numbers: &Renumbering,
) -> bool
    ensures { IsTrue result ↔ (pair_of other.now ≡ renumbered_pair numbers.now pair.now) }
{
    same_side(&other.up, &pair.up, numbers) && same_side(&other.low, &pair.low, numbers)
}

/// Whether pairs, renumbered, are other ones.
pub(crate) fn same_pairs(
    others: &[PairAtom<Atom>],
    pairs: &[PairAtom<Atom>],
    numbers: &Renumbering,
) -> bool
    ensures { IsTrue result ↔ (map pair_of others.now ≡ map (renumbered_pair numbers.now) pairs.now) }
{
    if others.len() != pairs.len() {
        return false;
    }
    'places: for place in 0..pairs.len() {
        if !same_pair(&others[place], &pairs[place], numbers) {
            return false;
        }
    }
    true
}

/// Whether a part of an expression over pairs, renumbered, is another one.
fn same_part(other: &PairPart<Atom>, part: &PairPart<Atom>, numbers: &Renumbering) -> bool
    ensures { IsTrue result ↔ (part_of other.now ≡ renumbered_part numbers.now part.now) }
{
    match (other, part) {
        (PairPart::Atom(other), PairPart::Atom(pair)) => same_pair(other, pair, numbers),
        (PairPart::Named(other), PairPart::Named(name)) => same_text(other, name),
        _ => false,
    }
}

/// Whether parts, renumbered, are other ones.
pub(crate) fn same_parts(
    others: &[&PairPart<Atom>],
    parts: &[&PairPart<Atom>],
    numbers: &Renumbering,
) -> bool
    ensures { IsTrue result ↔ (map part_behind others.now ≡ map (renumbered_behind numbers.now) parts.now) }
{
    if others.len() != parts.len() {
        return false;
    }
    'places: for place in 0..parts.len() {
        if !same_part(others[place], parts[place], numbers) {
            return false;
        }
    }
    true
}

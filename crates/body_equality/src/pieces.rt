ghost use Rattle.std.specs.Prelude.{◌≡◌, ◌↔◌, IsTrue, map};
ghost use Rattle.body_equality.specs.Renumbered.{renumbered};
ghost use Rattle.body_equality.specs.RenumberedLexicons.{renumbered_piece};
ghost use Rattle.name_resolution.specs.Plain.{flag_of, piece_of};

use crate::renumbering::Renumbering;
use fsm_base::Text;
use regex_ast::{Atom, FlagOp, Piece};

/// Whether two texts are the same.
pub(crate) fn same_text(other: &Text, text: &Text) -> bool
    ensures { IsTrue result ↔ (other.now ≡ text.now) }
{
    other.as_str() == text.as_str()
}

/// Whether both are no text, or the same one.
pub(crate) fn same_maybe(other: &Option<Text>, text: &Option<Text>) -> bool
    ensures { IsTrue result ↔ (other.now ≡ text.now) }
{
    match (other, text) {
        (Some(other), Some(text)) => same_text(other, text),
        (None, None) => true,
        _ => false,
    }
}

/// Whether two flags are the same.
fn same_flag(other: &FlagOp, flag: &FlagOp) -> bool
    ensures { IsTrue result ↔ (flag_of other.now ≡ flag_of flag.now) }
{
    other.kind == flag.kind
        && same_text(&other.feature, &flag.feature)
        && same_maybe(&other.value, &flag.value)
}

/// Whether a piece, renumbered, is another one.
fn same_piece(other: &Piece<Atom>, piece: &Piece<Atom>, numbers: &Renumbering) -> bool
    ensures { IsTrue result ↔ (piece_of other.now ≡ renumbered_piece numbers.now piece.now) }
{
    match (other, piece) {
        (Piece::Symbol(other), Piece::Symbol(leaf)) => numbers.same_leaf(*other, *leaf),
        (Piece::Flag(other), Piece::Flag(flag)) => same_flag(other, flag),
        _ => false,
    }
}

/// Whether the pieces of a side, renumbered, are those of another one.
pub(crate) fn same_side(others: &[Piece<Atom>], side: &[Piece<Atom>], numbers: &Renumbering) -> bool
    ensures { IsTrue result ↔ (map piece_of others.now ≡ map (renumbered_piece numbers.now) side.now) }
{
    if others.len() != side.len() {
        return false;
    }
    'places: for place in 0..side.len() {
        if !same_piece(&others[place], &side[place], numbers) {
            return false;
        }
    }
    true
}

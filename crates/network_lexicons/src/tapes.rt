ghost use Rattle.std.specs.Prelude.{◌≡◌, ◌↔◌, ◌⊎◌, ◌++◌, ◌∷◌, [], Contains, IfOk, IsTrue, OnOk, Some, length, slice_get};
ghost use Rattle.std.specs.Option.{option_map};
ghost use Rattle.flag_diacritics.specs.Numbers.{Keeps};
ghost use Rattle.flag_diacritics.specs.Tapes.{flag_of};
ghost use Rattle.network_lexicons.specs.Plain.{symbol_in};
ghost use Rattle.network_lexicons.specs.Sides.{HasSides, IsFirst, first_flag, first_symbol};

use crate::flags::Flags;
use flag_diacritics::Tape;
use fsm_base::{Pair, Sym};
use regex_ast::{Atom, FlagOp, Piece};
use std::alloc::{AllocError, Global};

/// The first letter of the tape of two sides.
#[derive(Clone, Copy, Debug)]
pub struct First {
    /// The letter.
    pub letter: Tape,
    /// How many pieces of the upper side it has.
    pub upper: usize,
    /// How many pieces of the lower side it has.
    pub lower: usize,
}

/// The tape of two sides: their symbols in pairs, from the left, as far as both have some, and each flag alone on its
/// side. Flags get their numbers in a list, and new ones are put behind the others there.
pub fn tape_of(
    alloc: Global,
    upper: &[Piece<Atom>],
    lower: &[Piece<Atom>],
    flags: &mut Flags,
) -> Result<Vec<Tape>, AllocError>
    ensures kept { OnOk result (Keeps flags.old flags.new) }
    ensures sides { IfOk result (λ tape. HasSides flags.new upper.now lower.now tape.items) }
{
    let mut tape = Vec::with_capacity(alloc, upper.len().max(lower.len()))?;
    let mut above = upper;
    let mut below = lower;
    'letters: while !are_empty(above, below) {
        let first = first_letter(above, below, flags)?;
        tape.push(first.letter)?;
        above = above.split_at(first.upper).1;
        below = below.split_at(first.lower).1;
    }
    Ok(tape)
}

/// Whether both sides are empty.
fn are_empty(upper: &[Piece<Atom>], lower: &[Piece<Atom>]) -> bool
    ensures { IsTrue result ↔ ((upper.now ≡ []) × (lower.now ≡ [])) }
{
    upper.is_empty() && lower.is_empty()
}

/// The first letter of the tape of two sides: a flag that one begins with, or else a symbol of each, as far as it has one.
fn first_letter(
    upper: &[Piece<Atom>],
    lower: &[Piece<Atom>],
    flags: &mut Flags,
) -> Result<First, AllocError>
    requires { (upper.now ≡ []) × (lower.now ≡ []) → ⊥ }
    ensures kept { OnOk result (Keeps flags.old flags.new) }
    ensures first { IfOk result (IsFirst flags.new upper.now lower.now) }
{
    if let Some(flag) = first_flag(upper) {
        return Ok(First {
            letter: Tape::UpFlag(flags.number_of(flag)?),
            upper: 1,
            lower: 0,
        });
    }
    if let Some(flag) = first_flag(lower) {
        return Ok(First {
            letter: Tape::LowFlag(flags.number_of(flag)?),
            upper: 0,
            lower: 1,
        });
    }
    Ok(First {
        letter: Tape::Pair(Pair {
            up: first_symbol(upper),
            low: first_symbol(lower),
        }),
        upper: upper.len().min(1),
        lower: lower.len().min(1),
    })
}

/// The flag that a side begins with, if it does.
fn first_flag(side: &[Piece<Atom>]) -> Option<&FlagOp>
    ensures { option_map (λ f. f.now) result ≡ first_flag side.now }
{
    match side.first() {
        Some(Piece::Flag(flag)) => Some(flag),
        _ => None,
    }
}

/// The symbol that a side begins with, if it does.
fn first_symbol(side: &[Piece<Atom>]) -> Option<Sym>
    ensures { result ≡ first_symbol side.now }
{
    match side.first() {
        Some(Piece::Symbol(leaf)) => Some(symbol_of(*leaf)),
        _ => None,
    }
}

/// The symbol of a leaf. Names stand in expressions alone: on a side, one would count as the symbol with its number.
fn symbol_of(leaf: Atom) -> Sym
    ensures { result ≡ symbol_in leaf }
{
    match leaf {
        Atom::Sym(symbol) => symbol,
        Atom::Name(name) => Sym(name),
    }
}

ghost use Rattle.std.specs.Prelude.{◌≡◌, IfOk, Contains};
ghost use Rattle.fsm_base.specs.declared.letters.Bound.{Bound};
ghost use Rattle.fsm_base.specs.declared.letters.Pair.{Pair};
ghost use Rattle.network_algebra.specs.Networks.{UsesOnly, all_letters};

use crate::symbols::Symbols;
use fsa::Fsa;
use fsa_rational::concat;
use fsm_base::{Bound, Pair, Sym};
use lang_algebra::one_letter;
use network_algebra::word;
use std::alloc::{AllocError, Global};

/// What a side of an atom stands for: anything, nothing or a symbol.
#[derive(Clone, Copy)]
enum Side {
    Any,
    Just(Option<Sym>),
}

impl Side {
    /// The side of a text.
    fn of(symbols: &Symbols, text: &str) -> Side {
        match text {
            "" | "?" => Side::Any,
            "0" => Side::Just(None),
            _ => Side::Just(symbols.symbol_of(text)),
        }
    }

    /// Whether a symbol or nothing may stand there.
    fn has(self, side: Option<Sym>) -> bool {
        match self {
            Side::Any => true,
            Side::Just(only) => only == side,
        }
    }
}

/// Whether an atom may be a letter.
fn may_be(symbols: &Symbols, atom: &str, letter: Bound<Pair>) -> bool {
    match letter {
        Bound::Edge => atom == ".#.",
        Bound::Inner(pair) => {
            let (up, low) = atom.split_once(':').unwrap_or((atom, atom));
            atom != ".#."
                && Side::of(symbols, up).has(pair.up)
                && Side::of(symbols, low).has(pair.low)
        }
    }
}

/// Those of the letters that an atom may be.
fn letters_of(
    alloc: Global,
    symbols: &Symbols,
    letters: &[Bound<Pair>],
    atom: &str,
) -> Result<Vec<Bound<Pair>>, AllocError>
    ensures { IfOk result (λ found. (x : Bound Pair) → Contains found.items x → Contains letters.now x) }
{
    let mut found = Vec::new(alloc);
    'letters: for letter in letters {
        if may_be(symbols, atom, *letter) {
            found.push(*letter)?;
        }
    }
    Ok(found)
}

/// The language of atoms side by side, over these letters.
pub fn part_of(
    alloc: Global,
    symbols: &Symbols,
    letters: &[Bound<Pair>],
    atoms: &str,
) -> Result<Fsa<Bound<Pair>>, AllocError>
    ensures { IfOk result (UsesOnly letters.now) }
{
    let mut part = word(alloc, &[])?;
    'atoms: for atom in atoms.split_ascii_whitespace() {
        let next = one_letter(alloc, &letters_of(alloc, symbols, letters, atom)?)?;
        part = concat(alloc, &part, &next)?;
    }
    Ok(part)
}

ghost use Rattle.std.specs.Prelude.{IfOk, Contains};
ghost use Rattle.fsm_base.specs.declared.letters.Bound.{Bound};
ghost use Rattle.fsm_base.specs.declared.letters.Sym.{Sym};
ghost use Rattle.network_algebra.specs.Networks.{UsesOnly};

use crate::symbols::Symbols;
use fsa::Fsa;
use fsa_rational::{concat, star, union};
use fsm_base::{Bound, Sym};
use lang_algebra::one_letter;
use network_algebra::word;
use std::alloc::{AllocError, Global};

/// The words of a part, over these letters of an alphabet.
pub fn part_of(
    alloc: Global,
    symbols: &Symbols,
    letters: &[Bound<Sym>],
    text: &str,
) -> Result<Fsa<Bound<Sym>>, AllocError>
    ensures { IfOk result (UsesOnly letters.now) }
{
    let mut part = one_letter(alloc, &[])?;
    'words: for text in text.split('|') {
        let more = row_of(alloc, symbols, letters, text)?;
        part = union(alloc, &part, &more)?;
    }
    Ok(part)
}

/// The words of atoms side by side.
fn row_of(
    alloc: Global,
    symbols: &Symbols,
    letters: &[Bound<Sym>],
    atoms: &str,
) -> Result<Fsa<Bound<Sym>>, AllocError>
    ensures { IfOk result (UsesOnly letters.now) }
{
    let mut row = word(alloc, &[])?;
    'atoms: for atom in atoms.split_ascii_whitespace() {
        let more = words_of(alloc, symbols, letters, atom)?;
        row = concat(alloc, &row, &more)?;
    }
    Ok(row)
}

/// The words of an atom.
fn words_of(
    alloc: Global,
    symbols: &Symbols,
    letters: &[Bound<Sym>],
    atom: &str,
) -> Result<Fsa<Bound<Sym>>, AllocError>
    ensures { IfOk result (UsesOnly letters.now) }
{
    match atom.strip_suffix('*') {
        Some(atom) => star(alloc, &letter_of(alloc, symbols, letters, atom)?),
        None => letter_of(alloc, symbols, letters, atom),
    }
}

/// The words of one of the letters that an atom may be.
fn letter_of(
    alloc: Global,
    symbols: &Symbols,
    letters: &[Bound<Sym>],
    atom: &str,
) -> Result<Fsa<Bound<Sym>>, AllocError>
    ensures { IfOk result (UsesOnly letters.now) }
{
    one_letter(alloc, &found_in(alloc, symbols, letters, atom)?)
}

/// Those of the letters that an atom may be.
fn found_in(
    alloc: Global,
    symbols: &Symbols,
    letters: &[Bound<Sym>],
    atom: &str,
) -> Result<Vec<Bound<Sym>>, AllocError>
    ensures { IfOk result (λ found. (x : Bound Sym) → Contains found.items x → Contains letters.now x) }
{
    let mut found = Vec::new(alloc);
    'letters: for letter in letters {
        if may_be(symbols, atom, *letter) {
            found.push(*letter)?;
        }
    }
    Ok(found)
}

/// Whether an atom may be a letter.
fn may_be(symbols: &Symbols, atom: &str, letter: Bound<Sym>) -> bool {
    match letter {
        Bound::Edge => atom == ".#.",
        Bound::Inner(symbol) => atom == "?" || symbols.text_of(symbol) == atom,
    }
}

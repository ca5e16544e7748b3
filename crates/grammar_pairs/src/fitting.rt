ghost use Rattle.std.specs.Prelude.{◌≡◌, ◌↔◌, ◌⊎◌, Contains, IfOk, IsTrue, OnOk, Some};
ghost use Rattle.fsm_base.specs.declared.letters.Sym.{Sym as Symbol};
ghost use Rattle.grammar_pairs.specs.Fitting.{Fits, IsNumber, IsTwice, IsTwiceOf, MayBe};
ghost use Rattle.grammar_pairs.specs.Plain.{pair_of, side_of};

use crate::feasible::written;
use crate::name_table::NameTable;
use crate::pair_table::PairTable;
use crate::symbol_set::{SymbolSet, has_symbol, symbol_of};
use fsm_base::{Pair, Sym};
use regex_ast::{Atom, PairAtom, PairSide};
use std::alloc::{AllocError, Global};

/// Whether a side may be this symbol, or none.
fn may_be(sets: &NameTable<SymbolSet>, side: &PairSide<Atom>, found: Option<Sym>) -> bool
    ensures { IsTrue result ↔ MayBe sets.now (side_of side.now) found }
{
    match side {
        PairSide::Zero => found == None,
        PairSide::Any => true,
        PairSide::One(leaf) => found == Some(symbol_of(*leaf)),
        PairSide::Member(name) => match found {
            Some(symbol) => has_symbol(sets, name.as_str(), symbol),
            None => false,
        },
    }
}

/// Whether an atom may be this pair.
fn fits(sets: &NameTable<SymbolSet>, atom: &PairAtom<Atom>, pair: Pair) -> bool
    ensures { IsTrue result ↔ Fits sets.now (pair_of atom.now) pair }
{
    may_be(sets, &atom.up, pair.up) && may_be(sets, &atom.low, pair.low)
}

/// Adds a number, if there is one.
fn add_found(numbers: &mut Vec<Sym>, found: Option<Sym>) -> Result<(), AllocError>
    ensures { OnOk result ((n : Symbol) → Contains numbers.new.items n ↔ (Contains numbers.old.items n ⊎ (found ≡ Some n))) }
{
    match found {
        Some(number) => {
            numbers.push(number)?;
            Ok(())
        }
        None => Ok(()),
    }
}

/// The number of a place, where it fits.
fn number_where(fits: bool, number: Sym) -> Option<Sym>
    ensures { (n : Symbol) → (result ≡ Some n) ↔ (IsTrue fits × (number ≡ n)) }
{
    if fits { Some(number) } else { None }
}

/// The numbers of the feasible pairs that an atom may be. One that names a pair is found by a hash, and for another one all pairs
/// are tried.
pub fn numbers_fitting(
    alloc: Global,
    pairs: &PairTable,
    sets: &NameTable<SymbolSet>,
    atom: &PairAtom<Atom>,
) -> Result<Vec<Sym>, AllocError>
    ensures { IfOk result (λ numbers. (n : Symbol) → Contains numbers.items n ↔ IsNumber pairs.now (Fits sets.now (pair_of atom.now)) n) }
{
    match written(atom) {
        Some(pair) => number_alone(alloc, pairs, pair),
        None => numbers_tried(alloc, pairs, sets, atom),
    }
}

/// The number of a pair, if it is a feasible one.
fn number_alone(alloc: Global, pairs: &PairTable, pair: Pair) -> Result<Vec<Sym>, AllocError>
    ensures { IfOk result (λ numbers. (n : Symbol) → Contains numbers.items n ↔ IsNumber pairs.now (λ x. x ≡ pair) n) }
{
    let _ = pairs.as_slice();
    let mut numbers = Vec::new(alloc);
    add_found(&mut numbers, pairs.number_of(pair))?;
    Ok(numbers)
}

/// The numbers of the feasible pairs that an atom may be, where all pairs are tried.
fn numbers_tried(
    alloc: Global,
    pairs: &PairTable,
    sets: &NameTable<SymbolSet>,
    atom: &PairAtom<Atom>,
) -> Result<Vec<Sym>, AllocError>
    ensures { IfOk result (λ numbers. (n : Symbol) → Contains numbers.items n ↔ IsNumber pairs.now (Fits sets.now (pair_of atom.now)) n) }
{
    let mut numbers = Vec::new(alloc);
    'pairs: for (place, pair) in pairs.as_slice().iter().enumerate() {
        let fitting = fits(sets, atom, *pair);
        add_found(&mut numbers, number_where(fitting, Sym(place as u32)))?;
    }
    Ok(numbers)
}

/// The numbers of the feasible pairs of a symbol of a set with itself.
pub fn numbers_twice(
    alloc: Global,
    pairs: &PairTable,
    sets: &NameTable<SymbolSet>,
    name: &str,
) -> Result<Vec<Sym>, AllocError>
    ensures { IfOk result (λ numbers. (n : Symbol) → Contains numbers.items n ↔ IsNumber pairs.now (IsTwice sets.now name.now) n) }
{
    match sets.get(name) {
        Some(symbols) => numbers_of_twice(alloc, pairs, symbols.as_slice()),
        None => Ok(Vec::new(alloc)),
    }
}

/// The numbers of the feasible pairs of one of these symbols with itself.
fn numbers_of_twice(
    alloc: Global,
    pairs: &PairTable,
    symbols: &[Sym],
) -> Result<Vec<Sym>, AllocError>
    ensures { IfOk result (λ numbers. (n : Symbol) → Contains numbers.items n ↔ IsNumber pairs.now (IsTwiceOf symbols.now) n) }
{
    let _ = pairs.as_slice();
    let mut numbers = Vec::new(alloc);
    'symbols: for symbol in symbols {
        let twice = Pair {
            up: Some(*symbol),
            low: Some(*symbol),
        };
        add_found(&mut numbers, pairs.number_of(twice))?;
    }
    Ok(numbers)
}

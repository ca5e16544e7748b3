ghost use Rattle.std.specs.Prelude.{◌≡◌, ◌↔◌, IfOk, List, Option, Some, Contains, map};
ghost use Rattle.std.proofs.Common.{rules};
ghost use Rattle.fsm_base.specs.declared.letters.Pair.{Pair};
ghost use Rattle.fsm_base.specs.declared.letters.Bound.{Bound};
ghost use Rattle.fsa.specs.Automaton.{UsesLetter};
ghost use Rattle.fsa.specs.Language.{Accepts};
ghost use Rattle.expr_meaning.specs.Operators.{inner};
ghost use Rattle.network_algebra.specs.Networks.{UsesOnly, all_letters};
ghost use Rattle.network_algebra.specs.Renamed.{inside_of};
ghost use Rattle.two_level.specs.Marks.{IsMarked, filled_table, marked_letters};
ghost use Rattle.two_level.specs.declared.marks.MarkedLetter.TheVariants.{Letter};

use fsa::Fsa;
use fsa_rational::concat;
use fsm_base::{Bound, Letter, Pair};
use network_algebra::{Renaming, renamed, word};
use std::alloc::{AllocError, Global};

/// A letter of a string of pairs in which a place is marked.
#[derive(Clone, Copy, Debug, PartialEq, Eq, PartialOrd, Ord)]
pub enum MarkedLetter {
    /// A pair of the string, or an edge of the word.
    Letter(Bound<Pair>),
    /// The place.
    Place,
}

impl Letter for MarkedLetter {
    ghost equal_is_same = { Prim.search rules };
}

/// Each letter as a letter of a marked string.
struct AsLetter;

impl Renaming<Bound<Pair>, MarkedLetter> for AsLetter {
    ghost name = { λ _ x. Some (Letter x) };

    fn name_of(&self, letter: Bound<Pair>) -> Option<MarkedLetter> {
        Some(MarkedLetter::Letter(letter))
    }
}

/// The strings of a language as parts of marked strings.
fn as_part(alloc: Global, a: &Fsa<Bound<Pair>>) -> Result<Fsa<MarkedLetter>, AllocError>
    ensures letters { IfOk result (λ m. (x : MarkedLetter) → UsesLetter m x → (y : Bound Pair) × UsesLetter a.now y × (x ≡ Letter y)) }
    ensures words { IfOk result (λ m. (v : List MarkedLetter) → Accepts m v ↔ ((w : List (Bound Pair)) × Accepts a.now w × (v ≡ map Letter w))) }
{
    renamed(alloc, a, &AsLetter)
}

/// The marked strings with parts of two languages.
pub fn marked_strings(
    alloc: Global,
    before: &Fsa<Bound<Pair>>,
    behind: &Fsa<Bound<Pair>>,
) -> Result<Fsa<MarkedLetter>, AllocError>
    ensures letters { IfOk result (λ m. (pairs : List Pair) → UsesOnly (all_letters pairs) before.now → UsesOnly (all_letters pairs) behind.now → UsesOnly (marked_letters pairs) m) }
    ensures words { IfOk result (λ m. (v : List MarkedLetter) → Accepts m v ↔ IsMarked (Accepts before.now) (Accepts behind.now) v) }
{
    let front = as_part(alloc, before)?;
    let place = word(alloc, &[MarkedLetter::Place])?;
    let back = as_part(alloc, behind)?;
    concat(alloc, &front, &concat(alloc, &place, &back)?)
}

/// The pairs as letters inside the word.
pub fn inner_letters(alloc: Global, pairs: &[Pair]) -> Result<Vec<Bound<Pair>>, AllocError>
    ensures { IfOk result (λ letters. letters.items ≡ inner pairs.now) }
{
    let mut letters = Vec::new(alloc);
    for pair in pairs {
        letters.push(Bound::Inner(*pair))?;
    }
    Ok(letters)
}

/// The edge, and the pairs as letters.
pub fn every_letter(alloc: Global, pairs: &[Pair]) -> Result<Vec<Bound<Pair>>, AllocError>
    ensures { IfOk result (λ letters. letters.items ≡ all_letters pairs.now) }
{
    let mut letters = Vec::new(alloc);
    letters.push(Bound::Edge)?;
    letters.extend_from_slice(&inner_letters(alloc, pairs)?)?;
    Ok(letters)
}

/// The letters of marked strings of these pairs.
pub fn every_marked_letter(alloc: Global, pairs: &[Pair]) -> Result<Vec<MarkedLetter>, AllocError>
    ensures { IfOk result (λ letters. letters.items ≡ marked_letters pairs.now) }
{
    let mut letters = Vec::new(alloc);
    letters.push(MarkedLetter::Place)?;
    letters.extend_from_slice(&part_letters(alloc, &every_letter(alloc, pairs)?)?)?;
    Ok(letters)
}

/// Each letter as a letter of a marked string.
fn part_letters(alloc: Global, letters: &[Bound<Pair>]) -> Result<Vec<MarkedLetter>, AllocError>
    ensures { IfOk result (λ parts. parts.items ≡ map Letter letters.now) }
{
    let mut parts = Vec::new(alloc);
    for letter in letters {
        parts.push(MarkedLetter::Letter(*letter))?;
    }
    Ok(parts)
}

/// The pair, where the letter is none of the word's edges.
fn inside(letter: Bound<Pair>) -> Option<Pair>
    ensures { result ≡ inside_of letter }
{
    match letter {
        Bound::Edge => None,
        Bound::Inner(pair) => Some(pair),
    }
}

/// The table that keeps pairs, drops edges, and puts each of the fillings in the place.
pub fn filled_rows(
    alloc: Global,
    pairs: &[Pair],
    fillings: &[Option<Pair>],
) -> Result<Vec<(MarkedLetter, Option<Pair>)>, AllocError>
    ensures { IfOk result (λ rows. rows.items ≡ filled_table pairs.now fillings.now) }
{
    let letters = every_letter(alloc, pairs)?;
    let mut rows = Vec::new(alloc);
    'letters: for letter in letters.as_slice() {
        rows.push((MarkedLetter::Letter(*letter), inside(*letter)))?;
    }
    'fillings: for filling in fillings {
        rows.push((MarkedLetter::Place, *filling))?;
    }
    Ok(rows)
}

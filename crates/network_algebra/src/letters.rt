ghost use Rattle.std.specs.Prelude.{◌≡◌, ◌↔◌, ◌∷◌, IfOk, List, Some, map};
ghost use Rattle.fsm_base.specs.declared.letters.Sym.{Sym};
ghost use Rattle.fsm_base.specs.declared.letters.Bound.{Bound};
ghost use Rattle.fsm_base.specs.declared.letters.Bound.TheVariants.{Inner};
ghost use Rattle.fsa.specs.Automaton.{UsesLetter};
ghost use Rattle.fsa.specs.Language.{Accepts};
ghost use Rattle.expr_meaning.specs.Operators.{inner, WithEdge};
ghost use Rattle.network_algebra.specs.Networks.{all_letters};
ghost use Rattle.network_algebra.specs.Renamed.{inside_of};

use crate::renaming::{Renaming, renamed};
use fsa::Fsa;
use fsm_base::{Bound, Sym};
use std::alloc::{AllocError, Global};

/// A letter inside the word by itself; the edge has no name.
struct EdgeLeftOut;

impl Renaming<Bound<Sym>, Sym> for EdgeLeftOut {
    ghost name = { λ _ x. inside_of x };

    fn name_of(&self, letter: Bound<Sym>) -> Option<Sym> {
        match letter {
            Bound::Edge => None,
            Bound::Inner(symbol) => Some(symbol),
        }
    }
}

/// A symbol as a letter inside the word.
struct AsInner;

impl Renaming<Sym, Bound<Sym>> for AsInner {
    ghost name = { λ _ x. Some (Inner x) };

    fn name_of(&self, letter: Sym) -> Option<Bound<Sym>> {
        Some(Bound::Inner(letter))
    }
}

/// The words of a language that are without the edge.
pub fn inside(alloc: Global, a: &Fsa<Bound<Sym>>) -> Result<Fsa<Sym>, AllocError>
    ensures letters { IfOk result (λ m. (x : Sym) → UsesLetter m x → UsesLetter a.now (Inner x)) }
    ensures words { IfOk result (λ m. (u : List Sym) → Accepts m u ↔ Accepts a.now (inner u)) }
{
    renamed(alloc, a, &EdgeLeftOut)
}

/// The words of a language, as words that might have the edge.
pub fn with_edge(alloc: Global, a: &Fsa<Sym>) -> Result<Fsa<Bound<Sym>>, AllocError>
    ensures letters { IfOk result (λ m. (x : Bound Sym) → UsesLetter m x → (s : Sym) × UsesLetter a.now s × (x ≡ Inner s)) }
    ensures words { IfOk result (λ m. (w : List (Bound Sym)) → Accepts m w ↔ WithEdge (Accepts a.now) w) }
{
    renamed(alloc, a, &AsInner)
}

/// The symbols of an alphabet as letters.
pub fn inner_letters(alloc: Global, symbols: &[Sym]) -> Result<Vec<Bound<Sym>>, AllocError>
    ensures { IfOk result (λ letters. letters.items ≡ map Inner symbols.now) }
{
    let mut letters = Vec::new(alloc);
    for symbol in symbols {
        letters.push(Bound::Inner(*symbol))?;
    }
    Ok(letters)
}

/// The edge, and the symbols of an alphabet as letters.
pub fn every_letter(alloc: Global, symbols: &[Sym]) -> Result<Vec<Bound<Sym>>, AllocError>
    ensures { IfOk result (λ letters. letters.items ≡ all_letters symbols.now) }
{
    let mut letters = Vec::new(alloc);
    letters.push(Bound::Edge)?;
    letters.extend_from_slice(&inner_letters(alloc, symbols)?)?;
    Ok(letters)
}

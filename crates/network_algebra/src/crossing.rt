ghost use Rattle.std.specs.Prelude.{◌≡◌, ◌↔◌, ◌++◌, ◌∷◌, [], List, IfOk, IfSome, OnOk, IsTrue, Contains, map, false, true};
ghost use Rattle.fsm_base.specs.declared.letters.Sym.{Sym};
ghost use Rattle.word_relations.specs.Relations.{AreSame, IsCross};
ghost use Rattle.fsa.specs.Automaton.{UsesLetter};
ghost use Rattle.fsa.specs.Language.{Accepts};
ghost use Rattle.word_relations.specs.Operations.{IsOneLetter};
ghost use Rattle.fst_algebra.specs.Relation.{IsRelated};
ghost use Rattle.fst_algebra.specs.Relations.{UsesLower, UsesUpper};
ghost use Rattle.network_algebra.specs.Crossing.{crossed, crossed_pairs, only_step};

use fsa::{Edge, Fsa};
use fsm_base::{Pair, Sym};
use lang_algebra::one_letter;
use std::alloc::{AllocError, Global};

/// The letters of an automaton whose words all have one letter, as far as that shows at once: it has a start and an
/// end, and each edge reads a letter between them.
pub fn letters_alone(alloc: Global, a: &Fsa<Sym>) -> Result<Option<Vec<Sym>>, AllocError>
    ensures letters { IfOk result (λ found. IfSome found (λ letters. (x : Sym) → Contains letters.items x → UsesLetter a.now x)) }
    ensures language { IfOk result (λ found. IfSome found (λ letters. (w : List Sym) → Accepts a.now w ↔ IsOneLetter letters.items w)) }
{
    if has_start_and_end(a.finals()) {
        letters_of_steps(alloc, a.edges())
    } else {
        Ok(None)
    }
}

/// Whether there are two states, of which the second is final.
fn has_start_and_end(finals: &[bool]) -> bool
    ensures { IsTrue result → finals.now ≡ false ∷ true ∷ [] }
{
    matches!(finals, [false, true])
}

/// The letters of edges that all read one letter from the start to the second state.
fn letters_of_steps(alloc: Global, edges: &[Edge<Sym>]) -> Result<Option<Vec<Sym>>, AllocError>
    ensures { IfOk result (λ found. IfSome found (λ letters. edges.now ≡ map only_step letters.items)) }
{
    let mut letters = Vec::new(alloc);
    for edge in edges {
        match letter_of_step(*edge) {
            Some(letter) => letters.push(letter)?,
            None => return Ok(None),
        }
    }
    Ok(Some(letters))
}

/// The letter of an edge that reads it from the start to the second state.
fn letter_of_step(edge: Edge<Sym>) -> Option<Sym>
    ensures { IfSome result (λ letter. edge ≡ only_step letter) }
{
    if edge.from == 0 && edge.to == 1 {
        edge.letter
    } else {
        None
    }
}

/// Whether the pairs of these letters take few edges beside those of the letters by themselves.
pub fn has_few_pairs(xs: &[Sym], ys: &[Sym]) -> bool {
    let apart = xs.len().saturating_add(ys.len()).saturating_mul(4);
    xs.len().saturating_mul(ys.len()) <= apart
}

/// The transducer that relates each of the first letters, as a word, to each of the second. A pair is one edge, so
/// that a long composition of such relations keeps to few states.
pub fn crossed_letters(alloc: Global, xs: &[Sym], ys: &[Sym]) -> Result<Fsa<Pair>, AllocError>
    ensures upper { IfOk result (λ m. (x : Sym) → UsesUpper m x → Contains xs.now x) }
    ensures lower { IfOk result (λ m. (y : Sym) → UsesLower m y → Contains ys.now y) }
    ensures relation { IfOk result (λ m. AreSame (IsRelated m) (IsCross (IsOneLetter xs.now) (IsOneLetter ys.now))) }
{
    let pairs = pairs_of(alloc, xs, ys)?;
    one_letter(alloc, &pairs)
}

/// A pair of each of the first letters with each of the second.
fn pairs_of(alloc: Global, xs: &[Sym], ys: &[Sym]) -> Result<Vec<Pair>, AllocError>
    ensures { IfOk result (λ pairs. pairs.items ≡ crossed_pairs xs.now ys.now) }
{
    let mut pairs = Vec::new(alloc);
    for x in xs {
        add_pairs(&mut pairs, *x, ys)?;
    }
    Ok(pairs)
}

/// Adds a pair of this upper letter with each of these.
fn add_pairs(pairs: &mut Vec<Pair>, x: Sym, ys: &[Sym]) -> Result<(), AllocError>
    ensures { OnOk result (pairs.new.items ≡ pairs.old.items ++ map (λ y. crossed x y) ys.now) }
{
    for y in ys {
        pairs.push(Pair {
            up: Some(x),
            low: Some(*y),
        })?;
    }
    Ok(())
}

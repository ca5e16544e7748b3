ghost use Rattle.std.specs.Prelude.{◌≡◌, ◌≤◌, ◌↔◌, List, IfOk, length};
ghost use Rattle.fsa.specs.Complete.{Accepts};
ghost use Rattle.fsa_minimal.specs.Fewest.{HasFewest};

use crate::checking::{are_images, are_reached};
use crate::folding::folded;
use crate::refining::refined;
use fsa::Dfa;
use fsm_base::Letter;
use std::alloc::{AllocError, Global};

/// The automaton of the same language with one state for all states from which the same words are accepted, of
/// those that the start reaches. The states are numbered in the order in which they are reached, by their distance
/// from the start and then by the places of the letters. Takes time in proportion to n log n for n states, times
/// the classes of letters that act alike.
pub fn minimal<L: Letter>(alloc: Global, a: &Dfa<L>) -> Result<Dfa<L>, AllocError>
    ensures letters { IfOk result (λ d. d.letters ≡ a.now.letters) }
    ensures states { IfOk result (λ d. length d.finals ≤ length a.now.finals) }
    ensures language { IfOk result (λ d. (w : List L) → Accepts d w ↔ Accepts a.now w) }
    ensures fewest { IfOk result HasFewest }
{
    let partition = refined(alloc, a)?;
    let small = folded(alloc, a, &partition)?;
    let is_smaller = small.automaton.states() <= a.states();
    if is_smaller
        && are_images(a, &small.automaton, &small.images)
        && are_reached(&small.automaton)
    {
        Ok(small.automaton)
    } else {
        // Not met, but not ruled out by a proof either.
        Err(AllocError)
    }
}

ghost use Rattle.std.specs.Prelude.{◌≡◌, ◌↔◌, List, IfOk, length, map, not};
ghost use Rattle.word_relations.specs.Words.{IsOver};
ghost use Rattle.fsa.specs.Complete.{Complete, Accepts};

use fsa::Dfa;
use fsm_base::Letter;
use std::alloc::{AllocError, Global};

/// The words over the automaton's letters that aren't in its language: the same automaton, with each final state
/// made not final, and the other way round.
pub fn complement<L: Letter>(alloc: Global, a: &Dfa<L>) -> Result<Dfa<L>, AllocError>
    ensures letters { IfOk result (λ d. d.letters ≡ a.now.letters) }
    ensures states { IfOk result (λ d. length d.finals ≡ length a.now.finals) }
    ensures language { IfOk result (λ d. (w : List L) → Accepts d w ↔ (IsOver a.now.letters w × ¬ Accepts a.now w)) }
{
    let letters = Vec::from_slice(alloc, a.letters())?;
    let next = Vec::from_slice(alloc, a.table())?;
    let finals = turned(alloc, a.finals())?;
    Ok(Dfa::of(letters, next, finals))
}

/// The negation of each.
fn turned(alloc: Global, finals: &[bool]) -> Result<Vec<bool>, AllocError>
    ensures { IfOk result (λ turned. turned.items ≡ map not finals.now) }
{
    let mut turned = Vec::new(alloc);
    for is_final in finals {
        turned.push(!*is_final)?;
    }
    Ok(turned)
}

/// The law that a complement's complement is the language again.
pub fn complement_is_undone<L: Letter>(a: &Dfa<L>)
    ensures { (w : List L)
        → (IsOver a.now.letters w × ¬ (IsOver a.now.letters w × ¬ Accepts a.now w)) ↔ Accepts a.now w }
{
    prove!(a.states() > 0);
}

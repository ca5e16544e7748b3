ghost use Rattle.std.specs.Prelude.{◌≡◌, ◌↔◌, [], ◌∷◌, false, true, Some, IfOk, List, Contains};
ghost use Rattle.fsa.specs.Automaton.{UsesLetter};
ghost use Rattle.fsa.specs.Language.{Accepts};
ghost use Rattle.fsa.specs.declared.automaton.Edge.{Edge};
ghost use Rattle.word_relations.specs.Operations.{IsOneLetter};

use fsa::{Edge, Fsa};
use fsm_base::Letter;
use std::alloc::{AllocError, Global};

/// The automaton of the words of one of these letters.
pub fn one_letter<L: Letter>(alloc: Global, letters: &[L]) -> Result<Fsa<L>, AllocError>
    ensures letters { IfOk result (λ m. (x : L) → UsesLetter m x → Contains letters.now x) }
    ensures language { IfOk result (λ m. (w : List L) → Accepts m w ↔ IsOneLetter letters.now w) }
{
    let mut m = Fsa::new(alloc)?;
    let end = m.add_state()?;
    m.set_final(end);
    for letter in letters {
        m.add_edge(Edge {
            from: 0,
            letter: Some(*letter),
            to: end,
        })?;
    }
    Ok(m)
}

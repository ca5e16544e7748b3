ghost use Rattle.std.specs.Prelude.{◌≡◌, ◌↔◌, IfOk, List, reverse};
ghost use Rattle.fsa.specs.Automaton.{UsesLetter};
ghost use Rattle.fsa.specs.Language.{Accepts};

use crate::extend::{add_reversed, enter_finals};
use crate::join::one_state_more;
use fsa::Fsa;
use fsm_base::Letter;
use std::alloc::{AllocError, Global};

/// The automaton of the words of `a` read backwards.
pub fn reverse<L: Letter>(alloc: Global, a: &Fsa<L>) -> Result<Fsa<L>, AllocError>
    ensures letters { IfOk result (λ m. (x : L) → UsesLetter m x → UsesLetter a.now x) }
    ensures language { IfOk result (λ m. (w : List L) → Accepts m w ↔ Accepts a.now (reverse w)) }
{
    let edges = a.edges();
    let mut m = one_state_more(alloc, a)?;
    m.set_final(1);
    add_reversed(&mut m, edges, 1)?;
    enter_finals(&mut m, 0, a.finals(), 1)?;
    Ok(m)
}

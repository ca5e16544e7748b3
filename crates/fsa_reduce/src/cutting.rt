ghost use Rattle.std.specs.Prelude.{◌≡◌, ◌↔◌, ◌≤◌, List, IsTrue, IfOk, Contains, length};
ghost use Rattle.fsa.specs.Automaton.{UsesLetter};
ghost use Rattle.fsa.specs.Language.{Accepts};
ghost use Rattle.fsa_rational.specs.Shapes.{Extends};

use fsa::{Edge, Fsa};
use fsm_base::Letter;
use std::alloc::{AllocError, Global};

/// The automaton without its last state, where that isn't the start, isn't final, and no edge enters or leaves
/// it.
pub fn without_last<L: Letter>(alloc: Global, m: Fsa<L>) -> Result<Fsa<L>, AllocError>
    ensures letters { IfOk result (λ n. (x : L) → UsesLetter n x → UsesLetter m x) }
    ensures language { IfOk result (λ n. (w : List L) → Accepts n w ↔ Accepts m w) }
{
    let last = m.states() - 1;
    if last == 0 || m.is_final(last) {
        return Ok(m);
    }
    let mut cut = Fsa::of_states(alloc, Vec::from_slice(alloc, &m.finals()[..last])?);
    if add_within(&mut cut, m.edges(), last)? {
        Ok(cut)
    } else {
        Ok(m)
    }
}

/// Adds edges, and says whether each is between states below the bound, at least as far as it is true.
fn add_within<L: Letter>(
    m: &mut Fsa<L>,
    edges: &[Edge<L>],
    bound: usize,
) -> Result<bool, AllocError>
    requires { bound ≤ length m.old.finals }
    ensures { IfOk result (λ all. IsTrue all → Extends m.old m.new (Contains edges.now)) }
{
    for edge in edges {
        if edge.from >= bound || edge.to >= bound {
            return Ok(false);
        }
        m.add_edge(*edge)?;
    }
    Ok(true)
}

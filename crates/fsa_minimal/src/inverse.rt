ghost use Rattle.std.specs.Prelude.{◌≡◌, ◌<◌, ℕ, All, IfOk, length};
ghost use Rattle.fsa_minimal.specs.Inverses.{IsInverse, AreInverses};

use fsa::Dfa;
use fsa_explore::columns_alike;
use fsm_base::Letter;
use std::alloc::{AllocError, Global};

/// Which states lead to a state at one letter, as a chain from the last one back.
#[derive(Debug, Drop)]
pub struct Inverse {
    /// The place of the letter.
    pub place: usize,
    /// For each state, the last state that leads to it.
    pub last: Vec<Option<usize>>,
    /// For each state, the one before it that leads to the same state.
    pub before: Vec<Option<usize>>,
}

/// An inverse for each class of letters that act alike.
pub fn inverses_of<L: Letter>(alloc: Global, a: &Dfa<L>) -> Result<Vec<Inverse>, AllocError>
    ensures { IfOk result (λ inverses. AreInverses a.now inverses.items) }
{
    let mut inverses = Vec::new(alloc);
    for place in &columns_alike(alloc, a)?.firsts {
        inverses.push(inverse_at(alloc, a, *place)?)?;
    }
    Ok(inverses)
}

/// The inverse at the letter at a place.
fn inverse_at<L: Letter>(alloc: Global, a: &Dfa<L>, place: usize) -> Result<Inverse, AllocError>
    requires { place < length a.now.letters }
    ensures place { IfOk result (λ inverse. inverse.place ≡ place) }
    ensures inverse { IfOk result (λ inverse. IsInverse a.now place (length a.now.finals) inverse.last.items inverse.before.items) }
{
    let mut last = vec![in alloc; None; a.states()]?;
    let mut before = Vec::with_capacity(alloc, a.states())?;
    for state in 0..a.states() {
        let to = a.next(state, place);
        before.push(last[to])?;
        last[to] = Some(state);
    }
    Ok(Inverse {
        place,
        last,
        before,
    })
}

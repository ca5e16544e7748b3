ghost use Rattle.std.specs.Prelude.{◌≡◌, ◌↔◌, ◌⊎◌, ◌++◌, ◌+◌, ◌*◌, ◌<◌, ◌≤◌, [], false, IfOk, OnOk, List, replicate, length};
ghost use Rattle.word_relations.specs.Operations.{IsIgnoring};
ghost use Rattle.fsa.specs.Automaton.{UsesLetter};
ghost use Rattle.fsa.specs.Language.{Accepts};
ghost use Rattle.fsa_rational.specs.Shapes.{Extends, PutInAt, PutInBelow};

use crate::extend::{add_epsilon, add_shifted, leave_finals};
use fsa::Fsa;
use fsm_base::Letter;
use std::alloc::{AllocError, Global};

/// The automaton of the words of `a` with words of `put` put in: before the first letter, between any two and behind the
/// last, any number of words at each place. At each state of `a` stands a copy of `put`, entered from the state and left
/// to it. Takes time in proportion to the edges of `a`, and its states times the size of `put`.
pub fn ignore<L: Letter>(alloc: Global, a: &Fsa<L>, put: &Fsa<L>) -> Result<Fsa<L>, AllocError>
    ensures letters { IfOk result (λ m. (x : L) → UsesLetter m x → UsesLetter a.now x ⊎ UsesLetter put.now x) }
    ensures language { IfOk result (λ m. (w : List L) → Accepts m w ↔ IsIgnoring (Accepts a.now) (Accepts put.now) w) }
{
    let mut m = states_with_copies(alloc, a, put.states())?;
    add_shifted(&mut m, a.edges(), 0)?;
    add_copies(&mut m, a.states(), put)?;
    Ok(m)
}

/// The states of `a`, and then for each of them so many further ones, none of these final.
fn states_with_copies<L: Copy>(
    alloc: Global,
    a: &Fsa<L>,
    count: usize,
) -> Result<Fsa<L>, AllocError>
    ensures { IfOk result (λ m. m ≡ record { edges = []; finals = a.now.finals ++ replicate (length a.now.finals * count) false }) }
{
    let copy = vec![in alloc; false; count]?;
    let mut finals = Vec::from_slice(alloc, a.finals())?;
    for _state in 0..a.states() {
        finals.extend_from_slice(&copy)?;
    }
    Ok(Fsa::of_states(alloc, finals))
}

/// Adds a copy of `put` for each state below a bound, entered from the state and left to it. The copies stand one after
/// another behind the bound.
fn add_copies<L: Copy>(m: &mut Fsa<L>, bound: usize, put: &Fsa<L>) -> Result<(), AllocError>
    requires { bound + bound * length put.now.finals ≤ length m.old.finals }
    ensures { OnOk result (Extends m.old m.new (PutInBelow put.now bound bound)) }
{
    prove!(bound <= m.states());
    let mut by = bound;
    for state in 0..bound {
        add_copy(m, state, put, by)?;
        by += put.states();
    }
    Ok(())
}

/// Adds a copy of `put`, the numbers of its states raised, that is entered from a state and left to it.
fn add_copy<L: Copy>(
    m: &mut Fsa<L>,
    state: usize,
    put: &Fsa<L>,
    by: usize,
) -> Result<(), AllocError>
    requires state { state < length m.old.finals }
    requires room { length put.now.finals + by ≤ length m.old.finals }
    ensures { OnOk result (Extends m.old m.new (PutInAt put.now state by)) }
{
    add_shifted(m, put.edges(), by)?;
    leave_finals(m, put.finals(), by, state)?;
    add_epsilon(m, state, by)
}

ghost use Rattle.std.specs.Prelude.{◌≡◌, ◌↔◌, ◌⊎◌, ◌++◌, ◌∷◌, ◌<◌, [], false, true, IfOk, List, replicate, length};
ghost use Rattle.word_relations.specs.Words.{IsConcatenation, IsRepetition};
ghost use Rattle.fsa.specs.Automaton.{UsesLetter};
ghost use Rattle.fsa.specs.Language.{Accepts};

use crate::extend::{add_epsilon, add_shifted, leave_finals};
use fsa::Fsa;
use fsm_base::Letter;
use std::alloc::{AllocError, Global};

/// The automaton of the words of `a` and those of `b`.
pub fn union<L: Letter>(alloc: Global, a: &Fsa<L>, b: &Fsa<L>) -> Result<Fsa<L>, AllocError>
    ensures letters { IfOk result (λ m. (x : L) → UsesLetter m x → UsesLetter a.now x ⊎ UsesLetter b.now x) }
    ensures language { IfOk result (λ m. (w : List L) → Accepts m w ↔ (Accepts a.now w ⊎ Accepts b.now w)) }
{
    let mut m = states_of_union(alloc, a, b)?;
    let second = m.states() - b.states();
    add_shifted(&mut m, a.edges(), 1)?;
    add_shifted(&mut m, b.edges(), second)?;
    add_epsilon(&mut m, 0, 1)?;
    add_epsilon(&mut m, 0, second)?;
    Ok(m)
}

/// A start, then the states of `a` and those of `b`.
fn states_of_union<L: Copy>(alloc: Global, a: &Fsa<L>, b: &Fsa<L>) -> Result<Fsa<L>, AllocError>
    ensures { IfOk result (λ m. m ≡ record { edges = []; finals = (false ∷ a.now.finals) ++ b.now.finals }) }
{
    let mut finals = Vec::new(alloc);
    finals.push(false)?;
    finals.extend_from_slice(a.finals())?;
    finals.extend_from_slice(b.finals())?;
    Ok(Fsa::of_states(alloc, finals))
}

/// The automaton of the words that are a word of `a` and then a word of `b`.
pub fn concat<L: Letter>(alloc: Global, a: &Fsa<L>, b: &Fsa<L>) -> Result<Fsa<L>, AllocError>
    ensures letters { IfOk result (λ m. (x : L) → UsesLetter m x → UsesLetter a.now x ⊎ UsesLetter b.now x) }
    ensures language { IfOk result (λ m. (w : List L) → Accepts m w ↔ IsConcatenation (Accepts a.now) (Accepts b.now) w) }
{
    let mut m = states_of_concat(alloc, a, b)?;
    add_shifted(&mut m, a.edges(), 0)?;
    add_shifted(&mut m, b.edges(), a.states())?;
    leave_finals(&mut m, a.finals(), 0, a.states())?;
    Ok(m)
}

/// The states of `a`, none of them final, and those of `b`.
fn states_of_concat<L: Copy>(alloc: Global, a: &Fsa<L>, b: &Fsa<L>) -> Result<Fsa<L>, AllocError>
    ensures { IfOk result (λ m. m ≡ record { edges = []; finals = replicate (length a.now.finals) false ++ b.now.finals }) }
{
    let mut finals = vec![in alloc; false; a.states()]?;
    finals.extend_from_slice(b.finals())?;
    Ok(Fsa::of_states(alloc, finals))
}

/// The automaton of the words that join any number of words of `a`, the empty word among them.
pub fn star<L: Letter>(alloc: Global, a: &Fsa<L>) -> Result<Fsa<L>, AllocError>
    ensures letters { IfOk result (λ m. (x : L) → UsesLetter m x → UsesLetter a.now x) }
    ensures language { IfOk result (λ m. (w : List L) → Accepts m w ↔ IsRepetition (Accepts a.now) w) }
{
    let mut m = one_state_more(alloc, a)?;
    m.set_final(0);
    add_shifted(&mut m, a.edges(), 1)?;
    add_epsilon(&mut m, 0, 1)?;
    leave_finals(&mut m, a.finals(), 1, 0)?;
    Ok(m)
}

/// As many states as `a` has and one more, none of them final.
pub fn one_state_more<L: Copy>(alloc: Global, a: &Fsa<L>) -> Result<Fsa<L>, AllocError>
    ensures { IfOk result (λ m. m ≡ record { edges = []; finals = replicate (length a.now.finals) false ++ false ∷ [] }) }
{
    let mut finals = vec![in alloc; false; a.states()]?;
    finals.push(false)?;
    Ok(Fsa::of_states(alloc, finals))
}

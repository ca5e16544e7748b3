ghost use Rattle.std.specs.Prelude.{◌≡◌, ◌<◌, ◌↔◌, ◌++◌, [], ◌∷◌, List, false, true, length, replicate, Contains, IfOk, OnOk};
ghost use Rattle.fsa.specs.Automaton.{UsesLetter};
ghost use Rattle.fsa.specs.Language.{Accepts};
ghost use Rattle.fsa.specs.declared.automaton.Edge.{Edge};
ghost use Rattle.network_algebra.specs.Words.{IsStep};

use fsa::{Edge, Fsa};
use fsm_base::Letter;
use std::alloc::{AllocError, Global};

/// The automaton of one word.
pub fn word<L: Letter>(alloc: Global, letters: &[L]) -> Result<Fsa<L>, AllocError>
    ensures letters { IfOk result (λ m. (x : L) → UsesLetter m x → Contains letters.now x) }
    ensures language { IfOk result (λ m. (v : List L) → Accepts m v ↔ (v ≡ letters.now)) }
{
    let mut m = places(alloc, letters)?;
    add_steps(&mut m, letters)?;
    Ok(m)
}

/// A state for each place of a word and one behind it, which is final.
fn places<L: Letter>(alloc: Global, letters: &[L]) -> Result<Fsa<L>, AllocError>
    ensures { IfOk result (λ m. m ≡ record { edges = []; finals = replicate (length letters.now) false ++ true ∷ [] }) }
{
    let mut finals = vec![in alloc; false; letters.len()]?;
    finals.push(true)?;
    Ok(Fsa::of_states(alloc, finals))
}

/// Adds an edge for each letter of a word, from its place to the next.
fn add_steps<L: Letter>(m: &mut Fsa<L>, letters: &[L]) -> Result<(), AllocError>
    requires edges { m.old.edges ≡ [] }
    requires room { length letters.now < length m.old.finals }
    ensures edges { OnOk result ((e : Edge L) → Contains m.new.edges e ↔ IsStep letters.now e) }
    ensures finals { OnOk result (m.new.finals ≡ m.old.finals) }
{
    'steps: for (place, letter) in letters.iter().enumerate() {
        m.add_edge(Edge {
            from: place,
            letter: Some(*letter),
            to: place + 1,
        })?;
    }
    Ok(())
}

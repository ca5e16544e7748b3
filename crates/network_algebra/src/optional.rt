ghost use Rattle.std.specs.Prelude.{◌≡◌, ◌<◌, ◌↔◌, ◌⊎◌, ◌∷◌, [], All, IfOk, IfSome, IsTrue, OnOk, List, Contains, drop, false, length};
ghost use Rattle.fsa.specs.Automaton.{UsesLetter};
ghost use Rattle.fsa.specs.Language.{Accepts};
ghost use Rattle.fsa.specs.declared.automaton.Edge.{Edge};
ghost use Rattle.fsa_rational.specs.Shapes.{Extends};
ghost use Rattle.network_algebra.specs.Optional.{EntersOther, HasPlainStart};

use fsa::{Edge, Fsa};
use fsm_base::Letter;
use std::alloc::{AllocError, Global};

/// An automaton of what this one accepts besides the empty word, where that shows at once: the start is final, and no
/// edge enters it.
pub fn split_off_empty<L: Letter>(alloc: Global, m: &Fsa<L>) -> Result<Option<Fsa<L>>, AllocError>
    ensures letters { IfOk result (λ found. IfSome found (λ rest. (x : L) → UsesLetter rest x → UsesLetter m.now x)) }
    ensures language { IfOk result (λ found. IfSome found (λ rest. (w : List L) → Accepts m.now w ↔ ((w ≡ []) ⊎ Accepts rest w))) }
{
    let edges = m.edges();
    if m.is_final(0) && leave_start_alone(edges) {
        Ok(Some(add_plain_start(alloc, m)?))
    } else {
        Ok(None)
    }
}

/// Whether an edge enters another state than the start.
fn enters_other<L: Letter>(edge: &Edge<L>) -> bool
    ensures { IsTrue result ↔ EntersOther edge.now }
{
    edge.to != 0
}

/// Whether no edge enters the start.
fn leave_start_alone<L: Letter>(edges: &[Edge<L>]) -> bool
    ensures { IsTrue result ↔ All EntersOther edges.now }
{
    edges.iter().all(enters_other)
}

/// The same automaton, whose start isn't final.
fn add_plain_start<L: Letter>(alloc: Global, m: &Fsa<L>) -> Result<Fsa<L>, AllocError>
    ensures { IfOk result (HasPlainStart m.now) }
{
    let mut plain = plain_states(alloc, m.finals())?;
    add_edges(&mut plain, m.edges())?;
    Ok(plain)
}

/// The same states without edges, of which the start isn't final.
fn plain_states<L: Copy>(alloc: Global, finals: &[bool]) -> Result<Fsa<L>, AllocError>
    requires { 0 < length finals.now }
    ensures { IfOk result (λ m. m ≡ record { edges = []; finals = false ∷ drop 1 finals.now }) }
{
    let mut plain = Vec::new(alloc);
    plain.push(false)?;
    plain.extend_from_slice(&finals[1..])?;
    Ok(Fsa::of_states(alloc, plain))
}

/// Adds edges.
fn add_edges<L: Letter>(m: &mut Fsa<L>, edges: &[Edge<L>]) -> Result<(), AllocError>
    requires { (e : Edge L) → Contains edges.now e → (e.from < length m.old.finals) × (e.to < length m.old.finals) }
    ensures { OnOk result (Extends m.old m.new (Contains edges.now)) }
{
    for edge in edges {
        m.add_edge(*edge)?;
    }
    Ok(())
}

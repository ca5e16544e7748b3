ghost use Rattle.std.specs.Prelude.{◌≡◌, ◌↔◌, true, Some, IfOk, IsTrue, MatchOption, ℕ, slice_get};
ghost use Rattle.lexc_compile.specs.Words.{IsChain, IsInOrder, letters_of};

use flag_diacritics::Tape;
use fsa::{Edge, Fsa};
use std::alloc::{AllocError, Global};

/// The one tape of a network that is a chain, and `None` for any other network.
pub fn word_of(alloc: Global, net: &Fsa<Tape>) -> Result<Option<Vec<Tape>>, AllocError>
    ensures { IfOk result (λ found. MatchOption found (¬ IsChain net.now) (λ tape. IsChain net.now × (tape.items ≡ letters_of net.now.edges))) }
{
    if !is_chain(net) {
        return Ok(None);
    }
    Ok(Some(letters_of(alloc, net.edges())?))
}

/// Whether the network is a chain: each edge leads from a state to the next, and the last state alone is final. It then
/// accepts one tape, that of its edges. One pass over the network.
fn is_chain(net: &Fsa<Tape>) -> bool
    ensures { IsTrue result ↔ IsChain net.now }
{
    is_in_order(net.edges()) && ends_alone(net.finals(), net.edges().len())
}

/// Whether each edge leads from a state to the next, the first from the start.
fn is_in_order(edges: &[Edge<Tape>]) -> bool
    ensures { IsTrue result ↔ IsInOrder edges.now }
{
    for (place, edge) in edges.iter().enumerate() {
        if edge.from != place || edge.to != place + 1 {
            return false;
        }
    }
    true
}

/// Whether a state is there and alone is final.
fn ends_alone(finals: &[bool], end: usize) -> bool
    ensures { IsTrue result ↔ ((p : ℕ) → (slice_get finals.now p ≡ Some true) ↔ (p ≡ end)) }
{
    for (state, is_final) in finals.iter().enumerate() {
        if *is_final != (state == end) {
            return false;
        }
    }
    end < finals.len()
}

/// The letters of edges.
fn letters_of(alloc: Global, edges: &[Edge<Tape>]) -> Result<Vec<Tape>, AllocError>
    ensures { IfOk result (λ tape. tape.items ≡ letters_of edges.now) }
{
    let mut tape = Vec::new(alloc);
    for edge in edges {
        if let Some(letter) = edge.letter {
            tape.push(letter)?;
        }
    }
    Ok(tape)
}

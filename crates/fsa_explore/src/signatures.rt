ghost use Rattle.std.specs.Prelude.{◌≡◌, ◌++◌, ◌↔◌, List, IfOk, OnOk, Contains, map};
ghost use Rattle.std.specs.List.{flat_map};
ghost use Rattle.fsa_explore.specs.declared.signatures.Mark.{Mark};
ghost use Rattle.fsa_explore.specs.Signatures.{IsSignature, edge_mark, end_number, known_class, mark_of, numbers};

use fsa::Edge;
use std::alloc::{AllocError, Global};

/// How an edge goes on: by its letter, and by the class of the state that it enters, or else by that state.
#[derive(Clone, Copy, Debug, PartialEq, Eq, PartialOrd, Ord)]
struct Mark {
    /// The letter, or 0 for none.
    letter: usize,
    /// Whether there is a letter, and whether the class is known.
    kind: usize,
    /// The class, or the state.
    number: usize,
}

impl Mark {
    /// The mark of an edge with this letter that enters a state of this class.
    fn of(letter: Option<usize>, class: Option<usize>, state: usize) -> Mark
        ensures { result ≡ mark_of letter class state }
    {
        match (letter, class) {
            (Some(letter), Some(class)) => Mark {
                letter,
                kind: 0,
                number: class,
            },
            (Some(letter), None) => Mark {
                letter,
                kind: 1,
                number: state,
            },
            (None, Some(class)) => Mark {
                letter: 0,
                kind: 2,
                number: class,
            },
            (None, None) => Mark {
                letter: 0,
                kind: 3,
                number: state,
            },
        }
    }
}

/// How a state goes on, as a list of numbers: whether it is final, and its edges, sorted and each once. States with
/// the same signature go on alike. A state that an edge enters counts by its class where that is known, and else by
/// itself. The classes are those of the states from the last one back.
pub fn signature_of(
    alloc: Global,
    is_final: bool,
    edges: &[Edge<usize>],
    known: &[usize],
    states: usize,
) -> Result<Vec<usize>, AllocError>
    ensures { IfOk result (λ signature. IsSignature is_final (map (edge_mark known.now states) edges.now) signature.items) }
{
    let mut marks = marks_of(alloc, edges, known, states)?;
    order_marks(&mut marks);
    let size = marks.len().saturating_mul(3).saturating_add(1);
    let mut signature = Vec::with_capacity(alloc, size)?;
    signature.push(end_number(is_final))?;
    add_marks(&marks, &mut signature)?;
    Ok(signature)
}

/// The number that says whether a state is final.
fn end_number(is_final: bool) -> usize
    ensures { result ≡ end_number is_final }
{
    usize::from(is_final)
}

/// Sorts marks and keeps each once. Those of a network that was made in order need no sorting.
fn order_marks(marks: &mut Vec<Mark>)
    ensures { (m : Mark) → Contains marks.new.items m ↔ Contains marks.old.items m }
{
    if are_ascending(marks) {
        return;
    }
    marks.sort_unstable();
    marks.dedup();
}

/// Whether each mark is greater than the one before it.
fn are_ascending(marks: &[Mark]) -> bool {
    marks.iter().is_sorted_by(|a, b| a < b)
}

/// The marks of edges.
fn marks_of(
    alloc: Global,
    edges: &[Edge<usize>],
    known: &[usize],
    states: usize,
) -> Result<Vec<Mark>, AllocError>
    ensures { IfOk result (λ marks. marks.items ≡ map (edge_mark known.now states) edges.now) }
{
    edges
        .iter()
        .map(|edge| edge_mark(known, states, *edge))
        .collect(alloc)
}

/// The mark of an edge.
fn edge_mark(known: &[usize], states: usize, edge: Edge<usize>) -> Mark
    ensures { result ≡ edge_mark known.now states edge }
{
    Mark::of(edge.letter, class_of(known, states, edge.to), edge.to)
}

/// The class of a state, where it is known.
fn class_of(known: &[usize], states: usize, state: usize) -> Option<usize>
    ensures { result ≡ known_class known.now states state }
{
    let place = states.saturating_sub(1).saturating_sub(state);
    known.get(place).copied()
}

/// Adds the numbers of marks.
fn add_marks(marks: &[Mark], signature: &mut Vec<usize>) -> Result<(), AllocError>
    ensures { OnOk result (signature.new.items ≡ signature.old.items ++ flat_map numbers marks.now) }
{
    for mark in marks {
        signature.extend_from_slice(&[mark.letter, mark.kind, mark.number])?;
    }
    Ok(())
}

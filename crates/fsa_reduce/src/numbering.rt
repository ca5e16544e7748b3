ghost use Rattle.std.specs.Prelude.{◌≡◌, IfOk, OnOk, Some, IsTrue, MatchOption, ◌↔◌, slice_get};
ghost use Rattle.fsa.specs.declared.automaton.Edge.{Edge};
ghost use Rattle.fsa_reduce.specs.Numbering.{StandsFor, AreNumbered, Keeps};

use fsa::Edge;
use fsm_base::{Hints, Letter};
use std::alloc::{AllocError, Global};
use std::collections::BTreeMap;

/// How many edges there are at least where hints save more than they take.
const MANY: usize = 256;

/// Edges with numbers in place of their letters, none being a letter of its own.
#[derive(Drop)]
pub struct Numbered<L> {
    /// The letter of each number.
    pub letters: Vec<Option<L>>,
    /// The edges.
    pub edges: Vec<Edge<usize>>,
}

/// Numbers the letters of edges, each once, in the order in which they come. The edges stay in their order.
pub fn number_letters<L: Letter>(
    alloc: Global,
    edges: &[Edge<L>],
) -> Result<Numbered<L>, AllocError>
    ensures { IfOk result (λ n. AreNumbered edges.now n.letters.items n.edges.items) }
{
    let mut hints = Hints::new(alloc);
    let mut numbers = BTreeMap::new(alloc);
    let mut letters = Vec::new(alloc);
    let mut numbered = Vec::with_capacity(alloc, edges.len())?;
    for edge in edges {
        let number = number_of(
            alloc,
            edges.len(),
            &mut hints,
            &mut numbers,
            &mut letters,
            edge.letter,
        )?;
        numbered.push(Edge {
            from: edge.from,
            letter: Some(number),
            to: edge.to,
        })?;
    }
    Ok(Numbered {
        letters,
        edges: numbered,
    })
}

/// The number of a letter of so many edges, which is noted where none is.
fn number_of<L: Letter>(
    alloc: Global,
    edges: usize,
    hints: &mut Hints,
    numbers: &mut BTreeMap<Option<L>, usize>,
    letters: &mut Vec<Option<L>>,
    letter: Option<L>,
) -> Result<usize, AllocError>
    ensures number { IfOk result (λ k. slice_get letters.new.items k ≡ Some letter) }
    ensures kept { OnOk result (Keeps letters.old.items letters.new.items) }
{
    if let Some(number) = hints.place_of(letters, letter) {
        return Ok(number);
    }
    if let Some(number) = numbers.get(&letter) {
        if *number < letters.len() && is_same(letters[*number], letter) {
            return Ok(*number);
        }
    }
    let number = letters.len();
    note(alloc, edges, hints, letter, number);
    numbers.insert(letter, number)?;
    letters.push(letter)?;
    Ok(number)
}

/// Notes the number of a letter of so many edges, if these are many.
fn note<L: Letter>(
    alloc: Global,
    edges: usize,
    hints: &mut Hints,
    letter: Option<L>,
    number: usize,
) {
    if edges >= MANY {
        hints.note(alloc, letter.mark(), number);
    }
}

/// Whether two letters are the same, or both are none.
fn is_same<L: Letter>(a: Option<L>, b: Option<L>) -> bool
    ensures { IsTrue result ↔ (a ≡ b) }
{
    match (a, b) {
        (Some(x), Some(y)) => x == y,
        (None, None) => true,
        _ => false,
    }
}

/// The edge with its letter in place of the number, or None where the number stands for no letter.
pub fn lettered<L: Copy>(letters: &[Option<L>], edge: Edge<usize>) -> Option<Edge<L>>
    ensures { MatchOption result ((e : Edge L) → ¬ StandsFor letters.now e edge) (λ e. StandsFor letters.now e edge) }
{
    let number = edge.letter?;
    let letter = letters.get(number)?;
    Some(Edge {
        from: edge.from,
        letter: *letter,
        to: edge.to,
    })
}

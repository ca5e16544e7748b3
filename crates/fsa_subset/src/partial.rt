ghost use Rattle.std.specs.Prelude.{◌≡◌, ◌<◌, [], ◌∷◌, Some, IfOk, OnOk, length, slice_get};
ghost use Rattle.fsa_subset.specs.Partial.{AddsEdge};

use crate::places::LetterIndex;
use fsa::Edge;
use fsa_explore::ListTable;
use std::alloc::{AllocError, Global};
use std::marker::Model;

/// The sets of states that were found, numbered from 0 in that order, and edges between them.
#[derive(Drop)]
pub struct Partial {
    /// The sets, each as the sorted list of its states.
    sets: ListTable,
    /// The edges, each with the place of its letter, between the numbers of sets.
    edges: Vec<Edge<LetterIndex>>,
}

impl Model for Partial {
    ghost use Rattle.fsa_subset.specs.Partial.{Partial};

    ghost Value = { Partial };

    ghost view = { λ found. record { sets = found.sets; edges = found.edges.items } };
}

impl Partial {
    /// The start alone, which has the number 0.
    pub fn start(alloc: Global, set: Vec<usize>) -> Result<Partial, AllocError>
        ensures sets { IfOk result (λ found. found.sets ≡ set.items ∷ []) }
        ensures edges { IfOk result (λ found. found.edges ≡ []) }
    {
        let mut sets = ListTable::new(alloc);
        sets.insert(set)?;
        Ok(Partial {
            sets,
            edges: Vec::new(alloc),
        })
    }

    /// How many sets were found.
    pub fn len(&self) -> usize
        ensures { result ≡ length self.now.sets }
    {
        self.sets.len()
    }

    /// The set with a number.
    pub fn set(&self, number: usize) -> &[usize]
        requires { number < length self.now.sets }
        ensures { slice_get self.now.sets number ≡ Some result.now }
    {
        self.sets.get(number)
    }

    /// The edges.
    pub fn edges(&self) -> &[Edge<LetterIndex>]
        ensures { result.now ≡ self.now.edges }
    {
        self.edges.as_slice()
    }

    /// Adds an edge from the set with a number, by the letter at a place, to a set. What is left after an Err is not
    /// said.
    pub fn add(&mut self, number: usize, place: usize, set: Vec<usize>) -> Result<(), AllocError>
        ensures { OnOk result (AddsEdge number place set.items self.old self.new) }
    {
        let to = self.sets.insert(set)?;
        self.edges.push(Edge {
            from: number,
            letter: Some(LetterIndex(place)),
            to,
        })?;
        Ok(())
    }
}

ghost use Rattle.std.specs.Prelude.{◌≡◌, Contains, ◌<◌, ◌+◌, ◌↔◌, [], ◌∷◌, ◌++◌, IfOk, OnOk, OnErr, IsTrue, false, true, length, slice_set};
ghost use Rattle.fsa.specs.declared.automaton.Edge.{Edge};
ghost use Rattle.fsa.specs.Automaton.{IsWellFormed, IsFinal};

use std::alloc::{AllocError, Global};
use std::marker::Model;

/// An edge of an automaton. States are counted from 0, and an edge with no letter is epsilon: a path takes it
/// without reading.
#[derive(Clone, Copy, Debug, PartialEq, Eq, PartialOrd, Ord, Hash)]
pub struct Edge<L> {
    /// The state that the edge leaves.
    pub from: usize,
    /// What the edge reads, or nothing.
    pub letter: Option<L>,
    /// The state that the edge enters.
    pub to: usize,
}

/// A finite automaton whose edges may be epsilon. State 0 is the start. Contracts see it as the list of its
/// edges, in the order in which they were added, and the list that says of each state whether it is final.
#[derive(Debug, Drop)]
pub struct Fsa<L> {
    /// The edges, in the order in which they were added. Each leaves and enters a state that there is.
    edges: Vec<Edge<L>>,
    /// Whether each state is final; its length is the number of states.
    finals: Vec<bool>,
}

impl<L> Model for Fsa<L> {
    ghost use Rattle.fsa.specs.Automaton.{Automaton, IsWellFormed};

    ghost Value = { Automaton L };

    ghost view = { λ m. record { edges = m.edges.items; finals = m.finals.items } };

    ghost invariant = { λ m. IsWellFormed (record { edges = m.edges.items; finals = m.finals.items }) };
}

impl<L: Copy> Fsa<L> {
    /// An automaton with one state, the start, which is not final, and no edge.
    pub fn new(alloc: Global) -> Result<Fsa<L>, AllocError>
        ensures { IfOk result (λ m. m ≡ record { edges = []; finals = false ∷ [] }) }
    {
        let mut finals = Vec::new(alloc);
        finals.push(false)?;
        Ok(Fsa {
            edges: Vec::new(alloc),
            finals,
        })
    }

    /// An automaton with no edge, by which of its states are final. There is an entry for each state.
    pub fn of_states(alloc: Global, finals: Vec<bool>) -> Fsa<L>
        requires { 0 < length finals.items }
        ensures { result ≡ record { edges = []; finals = finals.items } }
    {
        Fsa {
            edges: Vec::new(alloc),
            finals,
        }
    }

    /// The automaton of edges, by which of its states are final. There is an entry for each state. No copy is made.
    pub fn of(finals: Vec<bool>, edges: Vec<Edge<L>>) -> Fsa<L>
        requires start { 0 < length finals.items }
        requires within { (e : Edge L) → Contains edges.items e → (e.from < length finals.items) × (e.to < length finals.items) }
        ensures { result ≡ record { edges = edges.items; finals = finals.items } }
    {
        Fsa { edges, finals }
    }

    /// Adds a state, which is not final, and gives its number.
    pub fn add_state(&mut self) -> Result<usize, AllocError>
        ensures number { IfOk result (λ state. state ≡ length self.old.finals) }
        ensures ok { OnOk result (self.new ≡ record self.old { finals = self.old.finals ++ false ∷ [] }) }
        ensures err { OnErr result (self.new ≡ self.old) }
    {
        let state = self.finals.len();
        self.finals.push(false)?;
        Ok(state)
    }

    /// Adds an edge between two states.
    pub fn add_edge(&mut self, edge: Edge<L>) -> Result<(), AllocError>
        requires from { edge.from < length self.old.finals }
        requires to { edge.to < length self.old.finals }
        ensures ok { OnOk result (self.new ≡ record self.old { edges = self.old.edges ++ edge ∷ [] }) }
        ensures err { OnErr result (self.new ≡ self.old) }
    {
        self.edges.push(edge)?;
        Ok(())
    }

    /// Makes a state final.
    pub fn set_final(&mut self, state: usize)
        requires { state < length self.old.finals }
        ensures { self.new ≡ record self.old { finals = slice_set self.old.finals state true } }
    {
        self.finals[state] = true;
    }

    /// How many states there are.
    pub fn states(&self) -> usize
        ensures number { result ≡ length self.now.finals }
        ensures formed { IsWellFormed self.now }
    {
        self.finals.len()
    }

    /// The edges, in the order in which they were added.
    pub fn edges(&self) -> &[Edge<L>]
        ensures edges { result.now ≡ self.now.edges }
        ensures formed { IsWellFormed self.now }
    {
        self.edges.as_slice()
    }

    /// Whether each state is final.
    pub fn finals(&self) -> &[bool]
        ensures finals { result.now ≡ self.now.finals }
        ensures formed { IsWellFormed self.now }
    {
        self.finals.as_slice()
    }

    /// Whether a state is final.
    pub fn is_final(&self, state: usize) -> bool
        requires { state < length self.now.finals }
        ensures { IsTrue result ↔ IsFinal self.now state }
    {
        self.finals[state]
    }
}

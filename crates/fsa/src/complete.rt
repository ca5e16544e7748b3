ghost use Rattle.std.specs.Prelude.{◌≡◌, ◌<◌, ◌+◌, ◌*◌, ◌↔◌, Some, true, All, Contains, [], IfOk, OnOk, IsTrue, length, slice_get, List};
ghost use Rattle.word_relations.specs.Words.{IsDistinct, IsOver};
ghost use Rattle.fsa.specs.Automaton.{UsesLetter, HasNoEpsilonEdge};
ghost use Rattle.fsa.specs.Complete.{IsComplete, Accepts, next_state};
ghost use Rattle.fsa.specs.Language as language;
ghost use Rattle.fsa.specs.Arcs.{HasArcs};

use crate::automaton::{Edge, Fsa};
use crate::place::place_of;
use fsm_base::Letter;
use std::alloc::{AllocError, Global};
use std::marker::Model;

/// A deterministic automaton that is complete over its letters: in each state each letter leads to one state.
/// State 0 is the start. Contracts see it as its letters, in the order given, the table of next states, and the
/// list that says of each state whether it is final.
#[derive(Debug, Drop)]
pub struct Dfa<L> {
    /// The letters, each once, in the order given.
    letters: Vec<L>,
    /// The next state of each state at each letter: a row for each state, with an entry for each letter.
    next: Vec<usize>,
    /// Whether each state is final; its length is the number of states, at least one.
    finals: Vec<bool>,
}

impl<L> Model for Dfa<L> {
    ghost use Rattle.fsa.specs.Complete.{Complete, IsComplete};

    ghost Value = { Complete L };

    ghost view = { λ d. record { letters = d.letters.items; next = d.next.items; finals = d.finals.items } };

    ghost invariant = { λ d. IsComplete (record { letters = d.letters.items; next = d.next.items; finals = d.finals.items }) };
}

impl<L: Letter> Dfa<L> {
    /// The automaton of a table: the next state of state `s` at the letter at place `k` stands in `next` at
    /// `s * letters.len() + k`. `finals` has an entry for each state.
    pub fn of(letters: Vec<L>, next: Vec<usize>, finals: Vec<bool>) -> Dfa<L>
        requires start { 0 < length finals.items }
        requires distinct { IsDistinct letters.items }
        requires full { length next.items ≡ length finals.items * length letters.items }
        requires within { All (λ state. state < length finals.items) next.items }
        ensures { result ≡ record { letters = letters.items; next = next.items; finals = finals.items } }
    {
        Dfa {
            letters,
            next,
            finals,
        }
    }

    /// The letters, in the order of their places.
    pub fn letters(&self) -> &[L]
        ensures letters { result.now ≡ self.now.letters }
        ensures complete { IsComplete self.now }
    {
        self.letters.as_slice()
    }

    /// How many states there are.
    pub fn states(&self) -> usize
        ensures number { result ≡ length self.now.finals }
        ensures complete { IsComplete self.now }
    {
        self.finals.len()
    }

    /// The next state of each state at each letter: a row for each state, with an entry for each letter.
    pub fn table(&self) -> &[usize]
        ensures table { result.now ≡ self.now.next }
        ensures complete { IsComplete self.now }
    {
        self.next.as_slice()
    }

    /// Whether each state is final.
    pub fn finals(&self) -> &[bool]
        ensures finals { result.now ≡ self.now.finals }
        ensures complete { IsComplete self.now }
    {
        self.finals.as_slice()
    }

    /// The next state of a state at the letter at a place.
    pub fn next(&self, state: usize, place: usize) -> usize
        requires state { state < length self.now.finals }
        requires place { place < length self.now.letters }
        ensures next { next_state self.now state place ≡ Some result }
        ensures within { result < length self.now.finals }
    {
        self.next[state * self.letters.len() + place]
    }

    /// Whether a state is final.
    pub fn is_final(&self, state: usize) -> bool
        requires { state < length self.now.finals }
        ensures { IsTrue result ↔ (slice_get self.now.finals state ≡ Some true) }
    {
        self.finals[state]
    }

    /// Whether the word is in the language. Takes time in proportion to the word's length times what
    /// [`place_of`](crate::place_of) takes to find a letter.
    pub fn accepts(&self, word: &[L]) -> bool
        requires { IsOver self.now.letters word.now }
        ensures { IsTrue result ↔ Accepts self.now word.now }
    {
        let letters = self.letters();
        let mut state = 0;
        for letter in word {
            let Some(place) = place_of(letters, *letter) else {
                return false;
            };
            state = self.next(state, place);
        }
        self.is_final(state)
    }

    /// The same automaton with an edge for each state and letter.
    pub fn to_fsa(&self, alloc: Global) -> Result<Fsa<L>, AllocError>
        ensures states { IfOk result (λ m. m.finals ≡ self.now.finals) }
        ensures letters { IfOk result (λ m. (x : L) → UsesLetter m x → Contains self.now.letters x) }
        ensures epsilon { IfOk result HasNoEpsilonEdge }
        ensures language { IfOk result (λ m. (w : List L) → language.Accepts m w ↔ Accepts self.now w) }
    {
        let mut fsa = self.without_edges(alloc)?;
        for state in 0..self.states() {
            self.add_row(&mut fsa, state)?;
        }
        Ok(fsa)
    }

    /// The states alone.
    fn without_edges(&self, alloc: Global) -> Result<Fsa<L>, AllocError>
        ensures { IfOk result (λ m. m ≡ record { edges = []; finals = self.now.finals }) }
    {
        let finals = Vec::from_slice(alloc, self.finals())?;
        Ok(Fsa::of_states(alloc, finals))
    }

    /// Adds the edges that leave a state.
    fn add_row(&self, fsa: &mut Fsa<L>, state: usize) -> Result<(), AllocError>
        requires state { state < length self.now.finals }
        requires finals { fsa.old.finals ≡ self.now.finals }
        requires before { HasArcs self.now (λ s _. s < state) fsa.old.edges }
        ensures finals { OnOk result (fsa.new.finals ≡ self.now.finals) }
        ensures after { OnOk result (HasArcs self.now (λ s _. s < state + 1) fsa.new.edges) }
    {
        for (place, letter) in self.letters().iter().enumerate() {
            fsa.add_edge(Edge {
                from: state,
                letter: Some(*letter),
                to: self.next(state, place),
            })?;
        }
        Ok(())
    }
}

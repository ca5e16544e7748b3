ghost use Rattle.std.specs.Prelude.{◌≡◌, ◌<◌, ◌↔◌, ◌++◌, [], ◌∷◌, Contains, IfOk, OnErr, OnOk, IsTrue, length};
ghost use Rattle.fsa_explore.specs.Marks.{IsBounded, Adds};
ghost use Rattle.fsa_explore.specs.Marking.{IsMarking};

use std::alloc::{AllocError, Global};
use std::marker::Model;

/// A set of numbers below a bound. Contracts see the bound, and the numbers in the order in which they were
/// found. To add a number and to ask for one takes constant time, to empty the set time in proportion to what
/// it holds.
#[derive(Debug, Drop)]
pub struct NumberSet {
    /// Whether each number is in the set; its length is the bound.
    marks: Vec<bool>,
    /// The numbers of the set, each once, in the order in which they were found.
    found: Vec<usize>,
}

impl Model for NumberSet {
    ghost use Rattle.std.specs.Prelude.{length};
    ghost use Rattle.fsa_explore.specs.Marks.{Marks};
    ghost use Rattle.fsa_explore.specs.Marking.{IsMarking};

    ghost Value = { Marks };

    ghost view = { λ m. record { bound = length m.marks.items; found = m.found.items } };

    ghost invariant = { λ m. IsMarking m.marks.items m.found.items };
}

impl NumberSet {
    /// The empty set of numbers below the bound.
    pub fn new(alloc: Global, bound: usize) -> Result<NumberSet, AllocError>
        ensures { IfOk result (λ m. m ≡ record { bound = bound; found = [] }) }
    {
        Ok(NumberSet {
            marks: vec![in alloc; false; bound]?,
            found: Vec::new(alloc),
        })
    }

    /// The numbers, in the order in which they were found.
    pub fn found(&self) -> &[usize]
        ensures found { result.now ≡ self.now.found }
        ensures bounded { IsBounded self.now }
    {
        self.found.as_slice()
    }

    /// Whether a number is in the set.
    pub fn contains(&self, number: usize) -> bool
        requires { number < self.now.bound }
        ensures { IsTrue result ↔ Contains self.now.found number }
    {
        self.marks[number]
    }

    /// Adds a number, if it isn't there already.
    pub fn add(&mut self, number: usize) -> Result<(), AllocError>
        requires { number < self.old.bound }
        ensures ok { OnOk result (Adds self.old self.new (λ k. k ≡ number)) }
        ensures last { OnOk result (¬ Contains self.old.found number → self.new ≡ record self.old { found = self.old.found ++ number ∷ [] }) }
        ensures err { OnErr result (self.new ≡ self.old) }
    {
        if self.marks[number] {
            return Ok(());
        }
        self.found.push(number)?;
        self.marks[number] = true;
        Ok(())
    }

    /// Empties the set.
    pub fn clear(&mut self)
        ensures { self.new ≡ record self.old { found = [] } }
    {
        unmark(&mut self.marks, &self.found);
        self.found.clear();
    }
}

/// Takes away the marks of these numbers.
fn unmark(marks: &mut [bool], numbers: &[usize])
    requires marked { IsMarking marks.old numbers.now }
    ensures marks { IsMarking marks.new [] }
    ensures bound { length marks.new ≡ length marks.old }
{
    for number in numbers {
        marks[*number] = false;
    }
}

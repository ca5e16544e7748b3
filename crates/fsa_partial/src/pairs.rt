ghost use Rattle.std.specs.Prelude.{◌≡◌, ◌++◌, ◌⊎◌, ◌∷◌, [], Some, IfOk, OnOk, slice_get};
ghost use Rattle.word_relations.specs.Words.{IsDistinct};

use indexmap::IndexSet;
use std::alloc::{AllocError, Global};
use std::marker::Model;

/// The classes between which an edge leads.
#[derive(Clone, Copy, Debug, PartialEq, Eq, Hash)]
pub struct ClassPair {
    /// The class of the state that the edge leaves.
    pub from: usize,
    /// The class of the state that the edge enters.
    pub to: usize,
}

/// Pairs of classes, numbered from 0 in the order in which they came, and found again by a hash. Contracts see the
/// list of the pairs.
#[derive(Debug, Drop)]
pub struct PairTable {
    /// The pairs, each once. The place of a pair is its number.
    pairs: IndexSet<ClassPair>,
}

impl Model for PairTable {
    ghost use Rattle.std.specs.Prelude.{List};
    ghost use Rattle.fsa_partial.specs.declared.pairs.ClassPair.{ClassPair};

    ghost Value = { List ClassPair };

    ghost view = { λ table. table.pairs.keys };
}

impl PairTable {
    /// The table of no pairs.
    pub fn new(alloc: Global) -> PairTable
        ensures { result ≡ [] }
    {
        PairTable {
            pairs: IndexSet::new(alloc),
        }
    }

    /// How many pairs there are.
    pub fn len(&self) -> usize {
        self.pairs.len()
    }

    /// The number of a pair, which is added where it isn't there.
    pub fn number_of(&mut self, pair: ClassPair) -> Result<usize, AllocError>
        ensures number { IfOk result (λ k. slice_get self.new k ≡ Some pair) }
        ensures kept { OnOk result ((self.new ≡ self.old) ⊎ (self.new ≡ self.old ++ pair ∷ [])) }
        ensures once { OnOk result (IsDistinct self.new) }
    {
        let (number, _) = self.pairs.insert_full(pair)?;
        Ok(number)
    }
}

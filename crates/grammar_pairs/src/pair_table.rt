ghost use Rattle.std.specs.Prelude.{◌≡◌, ◌↔◌, ◌<◌, ◌^◌, Contains, IfOk, MatchOption, Some, length, slice_get};
ghost use Rattle.fsm_base.specs.declared.letters.Pair.{Pair as Letter};
ghost use Rattle.word_relations.specs.Words.{IsDistinct};
ghost use Rattle.grammar_pairs.specs.Feasible.{feasible};
ghost use Rattle.grammar_pairs.specs.Tables.{AreNumbers};

use crate::feasible::feasible_pairs;
use fsm_base::{Pair, Sym};
use indexmap::IndexSet;
use regex_ast::{Atom, Grammar};
use std::alloc::{AllocError, Global};
use std::marker::Model;

/// The feasible pairs of a grammar, each once, numbered from 0 and found again by a hash. Contracts see them as a list.
#[derive(Drop)]
pub struct PairTable {
    /// The pairs. The place of a pair is its number.
    pairs: IndexSet<Pair>,
}

impl Model for PairTable {
    ghost use Rattle.std.specs.Prelude.{List, ◌<◌, ◌^◌, length};
    ghost use Rattle.fsm_base.specs.declared.letters.Pair.{Pair};

    ghost Value = { List Pair };

    ghost view = { λ table. table.pairs.keys };

    ghost invariant = { λ table. length table.pairs.keys < 2 ^ 32 };
}

impl PairTable {
    /// The feasible pairs of a grammar. Of 2^32 pairs or more there is no memory for the numbers.
    pub fn of(alloc: Global, grammar: &Grammar<Atom>) -> Result<PairTable, AllocError>
        ensures { IfOk result (λ table. (x : Letter) → Contains table x ↔ Contains (feasible grammar.now) x) }
    {
        let pairs = feasible_pairs(alloc, grammar)?;
        let Ok(_count) = u32::try_from(pairs.len()) else {
            return Err(AllocError);
        };
        Ok(PairTable { pairs })
    }

    /// The pairs.
    pub fn as_slice(&self) -> &[Pair]
        ensures pairs { result.now ≡ self.now }
        ensures distinct { IsDistinct self.now }
        ensures few { length self.now < 2 ^ 32 }
    {
        self.pairs.as_slice()
    }

    /// The number of a pair, if it is one of them.
    pub fn number_of(&self, pair: Pair) -> Option<Sym>
        ensures { MatchOption result (¬ Contains self.now pair) (λ number. slice_get self.now number.0 ≡ Some pair) }
    {
        match self.pairs.get_index_of(&pair) {
            Some(place) => Some(Sym(place as u32)),
            None => None,
        }
    }

    /// The numbers of all pairs, in their order.
    pub fn numbers(&self, alloc: Global) -> Result<Vec<Sym>, AllocError>
        ensures { IfOk result (λ numbers. AreNumbers self.now numbers.items) }
    {
        let mut numbers = Vec::new(alloc);
        'places: for place in 0..self.pairs.len() {
            numbers.push(Sym(place as u32))?;
        }
        Ok(numbers)
    }
}

ghost use Rattle.std.specs.Prelude.{◌≡◌, ◌++◌, ◌∷◌, [], MatchOption, OnOk, Contains, ℕ};
ghost use Rattle.std.specs.Cmp.Rules.{hashing};
ghost use Rattle.std.specs.Hash as fed;
ghost use Rattle.std.proofs.Common.{rules};
ghost use Rattle.lexc_compile.specs.Marks.{mark_of, side_mark};

use flag_diacritics::Tape;
use fsm_base::Sym;
use indexmap::IndexMap;
use std::alloc::{AllocError, Global};
use std::hash::{Hash, Hasher};
use std::marker::Model;

/// A step of a word: where its letter is read.
#[derive(Clone, Copy, Debug, PartialEq, Eq)]
pub struct Step {
    /// The state that it leaves.
    pub from: usize,
    /// What it reads.
    pub letter: Tape,
}

/// Hashed as two numbers, since lexicons take a step for most of their letters.
impl Hash for Step {
    ghost hash_input = { λ step. fed.usize step.from ++ fed.u64 (mark_of step.letter) };

    ghost respects_eq = { Prim.search (hashing, rules) };

    fn hash<H: Hasher>(&self, state: &mut H) {
        self.from.hash(state);
        mark_of(self.letter).hash(state);
    }
}

/// The number by which a letter is hashed. Few others have the same.
fn mark_of(letter: Tape) -> u64
    ensures { result ≡ mark_of letter }
{
    match letter {
        Tape::Pair(pair) => side_mark(pair.up) * 2147483648 + side_mark(pair.low),
        Tape::UpFlag(flag) => u64::from(flag),
        Tape::LowFlag(flag) => u64::from(flag),
    }
}

/// The number of a side.
fn side_mark(side: Option<Sym>) -> u64
    ensures { result ≡ side_mark side }
{
    match side {
        None => 0,
        Some(sym) => u64::from(sym.0) + 1,
    }
}

/// The states that steps lead to, found by a hash. Contracts see the list of the steps, each with its state.
#[derive(Debug, Drop)]
pub struct StepTable {
    /// The state of each step.
    states: IndexMap<Step, usize>,
    /// For each state a place in `states` at which a step from there may be, most often the last one. It is looked at before
    /// a step is hashed, since sorted words follow the step that was added last.
    latest: Vec<usize>,
}

impl Model for StepTable {
    ghost use Rattle.std.specs.Prelude.{List, ℕ};
    ghost use Rattle.lexc_compile.specs.declared.steps.Step.{Step};

    ghost Value = { List (Step × ℕ) };

    ghost view = { λ table. table.states.entries };
}

impl StepTable {
    /// The table of no steps.
    pub fn new(alloc: Global) -> StepTable
        ensures { result ≡ [] }
    {
        StepTable {
            states: IndexMap::new(alloc),
            latest: Vec::new(alloc),
        }
    }

    /// The state that a step leads to, or `None` where the table has none for it.
    pub fn get(&self, step: Step) -> Option<usize>
        ensures { MatchOption result ((to : ℕ) → ¬ Contains self.now (step, to)) (λ to. Contains self.now (step, to)) }
    {
        match self.hinted(step) {
            Some(to) => Some(to),
            None => self.states.get(&step).copied(),
        }
    }

    /// Notes the state that a step leads to, for which the table has none.
    pub fn insert(&mut self, step: Step, to: usize) -> Result<(), AllocError>
        requires { (k : ℕ) → ¬ Contains self.old (step, k) }
        ensures { OnOk result (self.new ≡ self.old ++ (step, to) ∷ []) }
    {
        let place = self.states.len();
        self.states.insert(step, to)?;
        note(&mut self.latest, step.from, place);
        Ok(())
    }

    /// The state that a step leads to, if it is the one that the hint of the state that it leaves leads to.
    fn hinted(&self, step: Step) -> Option<usize>
        ensures { MatchOption result (Unit {0}) (λ to. Contains self.now (step, to)) }
    {
        let place = *self.latest.get(step.from)?;
        let (noted, to) = self.states.get_index(place)?;
        if *noted == step { Some(*to) } else { None }
    }
}

/// Notes where the last step from a state is. Without memory for hints there are none.
fn note(latest: &mut Vec<usize>, from: usize, place: usize) {
    if latest.len() <= from && latest.resize(from.saturating_add(1), 0).is_err() {
        return;
    }
    if let Some(noted) = latest.get_mut(from) {
        *noted = place;
    }
}

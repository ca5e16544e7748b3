ghost use Rattle.std.specs.Prelude.{◌≡◌, ◌↔◌, List, IfOk, map, slice_get};
ghost use Rattle.fsm_base.specs.declared.letters.Sym.{Sym};
ghost use Rattle.flag_diacritics.specs.Changes.{list_behind};
ghost use Rattle.flag_diacritics.specs.Numbers.{behind_if};
ghost use Rattle.fst_flagged.specs.Conditions.{Hold};
ghost use Rattle.flag_runs.specs.Runs.{Passes, behind_by, flags_in, tape_of, values_after};

use crate::values::{Behind, Values};
use flag_diacritics::{Action, Change, Setting, Tape, actions_of, change_by};
use fsm_base::{Pair, Sym};
use fst_flagged::{Condition, FIRST, Run};
use regex_ast::FlagOp;
use std::alloc::{AllocError, Global};
use std::marker::Model;

/// What the conditions of a network do. Contracts see the conditions, and what each does by numbers.
#[derive(Debug, Drop)]
pub struct Rules {
    /// The conditions, each at the place that its symbol says.
    conditions: Vec<Condition>,
    /// Their flags.
    flags: Vec<FlagOp>,
    /// What they do.
    actions: Vec<Action>,
    /// How many features they have.
    features: usize,
}

impl Model for Rules {
    ghost use Rattle.flag_runs.specs.Runs.{AreRules, RulesView};

    ghost Value = { RulesView };

    ghost view = { λ rules. record { conditions = rules.conditions.items; actions = rules.actions.items } };

    ghost invariant = { λ rules. AreRules rules.conditions.items rules.flags.items rules.actions.items rules.features };
}

impl Rules {
    /// Those of these conditions.
    pub fn of(alloc: Global, conditions: &[Condition]) -> Result<Rules, AllocError>
        ensures { IfOk result (λ rules. rules.conditions ≡ conditions.now) }
    {
        let kept = clones(alloc, conditions)?;
        let flags = flags_of(alloc, conditions)?;
        let actions = actions_of(alloc, &flags)?;
        Ok(Rules {
            conditions: kept,
            flags,
            actions: actions.list,
            features: actions.features,
        })
    }

    /// The values at the start of a word, where each feature is neutral.
    pub fn start(&self, alloc: Global) -> Result<Values, AllocError>
        ensures { IfOk result (λ values. (word : List Sym) → Passes self.now values word ↔ Hold self.now.conditions word) }
    {
        Ok(Values {
            upper: vec![in alloc; Setting::Neutral; self.features]?,
            lower: vec![in alloc; Setting::Neutral; self.features]?,
        })
    }

    /// What a symbol makes of values.
    pub fn after(&self, alloc: Global, values: &Values, symbol: Sym) -> Result<Behind, AllocError>
        ensures { IfOk result (λ behind. values_after values.now behind ≡ behind_by self.now values.now symbol) }
    {
        match self.tape_of(symbol) {
            Tape::Pair(_) => Ok(Behind::Stay),
            Tape::UpFlag(number) => {
                match change_at(alloc, &self.actions, &values.upper, number)? {
                    Change::Refused => Ok(Behind::Refused),
                    Change::Stay => Ok(Behind::Stay),
                    Change::To(upper) => Ok(Behind::To(Values {
                        upper,
                        lower: Vec::from_slice(alloc, &values.lower)?,
                    })),
                }
            }
            Tape::LowFlag(number) => {
                match change_at(alloc, &self.actions, &values.lower, number)? {
                    Change::Refused => Ok(Behind::Refused),
                    Change::Stay => Ok(Behind::Stay),
                    Change::To(lower) => Ok(Behind::To(Values {
                        upper: Vec::from_slice(alloc, &values.upper)?,
                        lower,
                    })),
                }
            }
        }
    }

    /// The symbol as a letter of a tape: a pair with nothing below it, or the flag of its condition.
    pub fn tape_of(&self, symbol: Sym) -> Tape
        ensures { result ≡ tape_of self.now.conditions symbol }
    {
        if symbol.0 < FIRST {
            return Tape::Pair(Pair {
                up: Some(symbol),
                low: None,
            });
        }
        let number = symbol.0 - FIRST;
        match self.conditions.get(number as usize) {
            Some(
                Condition {
                    run: Run::Lower,
                    ..
                },
            ) => Tape::LowFlag(number),
            _ => Tape::UpFlag(number),
        }
    }

    /// The flags of the conditions, in their order.
    pub fn flags(&self) -> &[FlagOp]
        ensures { result.now ≡ flags_in self.now.conditions }
    {
        self.flags.as_slice()
    }
}

/// Clones of conditions.
fn clones(alloc: Global, conditions: &[Condition]) -> Result<Vec<Condition>, AllocError>
    ensures { IfOk result (λ kept. kept.items ≡ conditions.now) }
{
    let mut kept = Vec::new(alloc);
    for condition in conditions {
        kept.push(Condition {
            run: condition.run,
            flag: condition.flag.clone()?,
        })?;
    }
    Ok(kept)
}

/// The flags of conditions.
fn flags_of(alloc: Global, conditions: &[Condition]) -> Result<Vec<FlagOp>, AllocError>
    ensures { IfOk result (λ flags. flags.items ≡ flags_in conditions.now) }
{
    let mut flags = Vec::new(alloc);
    for condition in conditions {
        flags.push(condition.flag.clone()?)?;
    }
    Ok(flags)
}

/// What the flag with a number makes of the features of its run; one that isn't there leaves them.
fn change_at(
    alloc: Global,
    actions: &[Action],
    now: &[Setting],
    number: u32,
) -> Result<Change, AllocError>
    ensures { IfOk result (λ change. list_behind now.now change ≡ behind_if now.now (slice_get actions.now number)) }
{
    match actions.get(number as usize) {
        Some(action) => change_by(alloc, now, action),
        None => Ok(Change::Stay),
    }
}

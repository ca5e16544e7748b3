ghost use Rattle.std.specs.Prelude.{◌≡◌, ◌++◌, IfOk, OnOk, map};
ghost use Rattle.fst_flagged.specs.Images.{condition_of};

use regex_ast::FlagOp;
use std::alloc::{AllocError, Global};

/// The number of the first condition. Symbols of words have numbers below it: a table of symbols holds fewer.
pub const FIRST: u32 = 16_777_216;

/// A run of flags along a path. Each goes by itself: what a flag of one sets, no flag of the other sees.
#[derive(Clone, Copy, Debug, PartialEq, Eq)]
pub enum Run {
    /// That of the flags on the upper side of lexicons.
    Upper,
    /// That of the flags on their lower side.
    Lower,
}

/// What a path asks of those who take it: that a flag of a run passes.
#[derive(Debug, Drop)]
pub struct Condition {
    /// The run.
    pub run: Run,
    /// The flag.
    pub flag: FlagOp,
}

/// A clone shares the flag's texts.
impl Clone for Condition {
    ghost is_clone = { λ source condition. condition ≡ source };

    fn clone(&self) -> Result<Condition, AllocError> {
        Ok(Condition {
            run: self.run,
            flag: self.flag.clone()?,
        })
    }
}

/// A copy of each condition, in the same order.
pub fn copied(alloc: Global, conditions: &[Condition]) -> Result<Vec<Condition>, AllocError>
    ensures { IfOk result (λ copies. copies.items ≡ conditions.now) }
{
    let mut copies = Vec::with_capacity(alloc, conditions.len())?;
    for condition in conditions {
        copies.push(condition.clone()?)?;
    }
    Ok(copies)
}

/// The conditions of the one list, and behind them those of the other.
pub fn joined(
    alloc: Global,
    front: &[Condition],
    rest: &[Condition],
) -> Result<Vec<Condition>, AllocError>
    ensures { IfOk result (λ copies. copies.items ≡ front.now ++ rest.now) }
{
    let mut copies = copied(alloc, front)?;
    for condition in rest {
        copies.push(condition.clone()?)?;
    }
    Ok(copies)
}

/// A condition of each flag in the run of the upper side, and behind these one in the run of the lower side.
pub fn conditions_for(alloc: Global, flags: &[FlagOp]) -> Result<Vec<Condition>, AllocError>
    ensures { IfOk result (λ conditions. conditions.items ≡ map (condition_of Run.Upper) flags.now ++ map (condition_of Run.Lower) flags.now) }
{
    let mut conditions = Vec::new(alloc);
    add_flags(&mut conditions, Run::Upper, flags)?;
    add_flags(&mut conditions, Run::Lower, flags)?;
    Ok(conditions)
}

/// Adds a condition of the run for each flag.
fn add_flags(conditions: &mut Vec<Condition>, run: Run, flags: &[FlagOp]) -> Result<(), AllocError>
    ensures { OnOk result (conditions.new.items ≡ conditions.old.items ++ map (condition_of run) flags.now) }
{
    for flag in flags {
        conditions.push(Condition {
            run,
            flag: flag.clone()?,
        })?;
    }
    Ok(())
}

/// The flags of the conditions, in the same order.
pub fn flags_of(alloc: Global, conditions: &[Condition]) -> Result<Vec<FlagOp>, AllocError>
    ensures { IfOk result (λ flags. flags.items ≡ map (λ condition. condition.flag) conditions.now) }
{
    let mut flags = Vec::with_capacity(alloc, conditions.len())?;
    for condition in conditions {
        flags.push(condition.flag.clone()?)?;
    }
    Ok(flags)
}

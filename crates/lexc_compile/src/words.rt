ghost use Rattle.std.specs.Prelude.{◌+◌, ◌<◌, ◌≤◌, IfOk, OnOk, length};
ghost use Rattle.lexc_compile.specs.Blocks.{IsThere};
ghost use Rattle.lexc_compile.specs.Built.{IsTable, TakesStep, Walks, AddsEntry};
ghost use Rattle.lexc_compile.specs.Paths.{word};

use crate::blocks::target_of;
use crate::steps::{Step, StepTable};
use flag_diacritics::Tape;
use fsa::{Edge, Fsa};
use std::alloc::AllocError;

/// Adds what is missing of the path of an entry that is a word, in the lexicon at a place, among so many lexicons. Its steps
/// but the last are shared with the words that begin alike; the last leads straight to where the path goes on.
pub fn add_word(
    m: &mut Fsa<Tape>,
    steps: &mut StepTable,
    count: usize,
    place: usize,
    tape: &[Tape],
    next: Option<u32>,
) -> Result<(), AllocError>
    requires room { count < 18446744073709551615 }
    requires homes { count + 2 ≤ length m.old.finals }
    requires place { place < count }
    requires next { IsThere count next }
    requires table { IsTable steps.old m.old }
    ensures { OnOk result (AddsEntry count (record { place = place; content = word tape.now; next = next }) m.old steps.old m.new steps.new) }
{
    let home = place + 1;
    let to = target_of(count, next);
    match tape.split_last() {
        Some((last, front)) => {
            let from = walk(m, steps, home, front)?;
            m.add_edge(Edge {
                from,
                letter: Some(*last),
                to,
            })
        }
        None => m.add_edge(Edge {
            from: home,
            letter: None,
            to,
        }),
    }
}

/// The state that the letters of a tape lead to from a state, steps being added where there are none.
fn walk(
    m: &mut Fsa<Tape>,
    steps: &mut StepTable,
    from: usize,
    tape: &[Tape],
) -> Result<usize, AllocError>
    requires from { from < length m.old.finals }
    requires table { IsTable steps.old m.old }
    ensures { IfOk result (λ to. Walks from tape.now m.old steps.old m.new steps.new to) }
{
    let mut at = from;
    for letter in tape {
        let step = Step {
            from: at,
            letter: *letter,
        };
        at = take_step(m, steps, step)?;
    }
    Ok(at)
}

/// The state that a step leads to, which is added, with its edge, where there is none.
fn take_step(m: &mut Fsa<Tape>, steps: &mut StepTable, step: Step) -> Result<usize, AllocError>
    requires { step.from < length m.old.finals }
    ensures { IfOk result (λ to. TakesStep step m.old steps.old m.new steps.new to) }
{
    if let Some(to) = steps.get(step) {
        return Ok(to);
    }
    let to = m.add_state()?;
    m.add_edge(Edge {
        from: step.from,
        letter: Some(step.letter),
        to,
    })?;
    steps.insert(step, to)?;
    Ok(to)
}

ghost use Rattle.std.specs.Prelude.{◌↔◌, List, IfOk, IfSome};
ghost use Rattle.fsa.specs.Automaton.{UsesLetter};
ghost use Rattle.fsa.specs.Language.{Accepts};
ghost use Rattle.fsa_partial.specs.Minimal.{HasFewest, IsMinimal};

use crate::checking::is_minimal;
use fsa::Fsa;
use fsa_reduce::{reduced, trim};
use fsa_subset::determine_within;
use fsm_base::Letter;
use std::alloc::{AllocError, Global};

/// How many steps may be taken for each edge to leave out the states that the start doesn't lead to. A deterministic
/// automaton takes a few.
const STEPS_FOR_AN_EDGE: usize = 16;

/// How many steps may be taken at least.
const STEPS: usize = 262_144;

/// The automaton of the same language with the fewest states of all deterministic ones. None where it takes many steps
/// to make the given one deterministic, which a deterministic one never does, or more than so many passes to tell the states
/// apart, or where not all states that go on alike were merged. Takes time in proportion to the edges for each pass,
/// times the logarithm of their number.
pub fn fewest_states<L: Letter>(
    alloc: Global,
    a: &Fsa<L>,
    passes: usize,
) -> Result<Option<Fsa<L>>, AllocError>
    ensures letters { IfOk result (λ found. IfSome found (λ m. (x : L) → UsesLetter m x → UsesLetter a.now x)) }
    ensures language { IfOk result (λ found. IfSome found (λ m. (w : List L) → Accepts m w ↔ Accepts a.now w)) }
    ensures minimal { IfOk result (λ found. IfSome found IsMinimal) }
    ensures fewest { IfOk result (λ found. IfSome found HasFewest) }
{
    let steps = a
        .edges()
        .len()
        .saturating_mul(STEPS_FOR_AN_EDGE)
        .saturating_add(STEPS);
    let Some(reached) = determine_within(alloc, a, steps)? else {
        return Ok(None);
    };
    let trimmed = trim(alloc, &reached)?;
    let small = reduced(alloc, &trimmed)?;
    let has_fewest = is_minimal(alloc, &small, passes)?;
    if has_fewest {
        Ok(Some(small))
    } else {
        Ok(None)
    }
}

ghost use Rattle.std.specs.Prelude.{◌↔◌, List, IfOk};
ghost use Rattle.fsa.specs.Automaton.{UsesLetter};
ghost use Rattle.fsa.specs.Language.{Accepts};

use flag_diacritics::Tape;
use fsa::Fsa;
use fsa_reduce::{ends_merged, reduced};
use fsa_subset::determine_within;
use fsm_base::Pair;
use network_algebra::{a_little_more, straight};
use std::alloc::{AllocError, Global};

/// How many steps may be taken for each edge of the automaton, so that the work stays in proportion to its size. A lexicon
/// takes a few.
const STEPS_FOR_AN_EDGE: usize = 16;

/// How many steps may be taken at least, so that each small automaton is made deterministic.
const STEPS: usize = 65_536;

/// A smaller automaton of the same tapes, its flags being letters as the others are: common ends of entries become one path, then common
/// beginnings, as far as that takes few steps, and what goes on alike behind that. Resolved flags multiply states, so they are made few
/// before. The automaton is given back as soon as it isn't needed, since it is the largest thing of all.
pub fn small(alloc: Global, tapes: Fsa<Tape>) -> Result<Fsa<Tape>, AllocError>
    ensures letters { IfOk result (λ m. (x : Tape) → UsesLetter m x → UsesLetter tapes x) }
    ensures language { IfOk result (λ m. (tape : List Tape) → Accepts m tape ↔ Accepts tapes tape) }
{
    let merged = ends_merged(alloc, &tapes)?;
    drop(tapes);
    let Some(straight) = determine_within(alloc, &merged, steps_for(merged.edges().len()))? else {
        return reduced(alloc, &merged);
    };
    drop(merged);
    let small = reduced(alloc, &straight)?;
    Ok(small)
}

/// A transducer that accepts the same lists of pairs, each on one path, so that states which go on alike are found at once. Where it does
/// so already, or that takes many steps or more than twice as many edges, the same one.
pub fn straightened(alloc: Global, a: Fsa<Pair>) -> Result<Fsa<Pair>, AllocError>
    ensures letters { IfOk result (λ m. (x : Pair) → UsesLetter m x → UsesLetter a x) }
    ensures language { IfOk result (λ m. (w : List Pair) → Accepts m w ↔ Accepts a w) }
{
    match straight(alloc, &a, a_little_more(a.edges().len()))? {
        Some(straight) => Ok(straight),
        None => Ok(a),
    }
}

/// How many steps may be taken for so many edges.
fn steps_for(edges: usize) -> usize {
    edges
        .saturating_mul(STEPS_FOR_AN_EDGE)
        .saturating_add(STEPS)
}

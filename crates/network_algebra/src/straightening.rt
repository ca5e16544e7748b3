ghost use Rattle.std.specs.Prelude.{◌↔◌, List, IfOk, IfSome};
ghost use Rattle.fsa.specs.Automaton.{UsesLetter};
ghost use Rattle.fsa.specs.Language.{Accepts};

use fsa::Fsa;
use fsa_reduce::reduced;
use fsa_subset::determine_within;
use fsm_base::Pair;
use std::alloc::{AllocError, Global};

/// How many steps may be taken for each edge of a transducer, so that the work stays in proportion to its size. A lexicon
/// takes a few.
const STEPS_FOR_AN_EDGE: usize = 16;

/// How many steps may be taken at least, so that each small transducer is made deterministic.
const STEPS: usize = 262_144;

/// How many edges more than twice as many are a little more.
const EDGES_MORE: usize = 1_024;

/// How many edges are at most a little more than so many.
pub fn a_little_more(edges: usize) -> usize {
    edges.saturating_mul(2).saturating_add(EDGES_MORE)
}

/// A small transducer that accepts the same lists of pairs, each on one path. Where the given one is like that already, or few steps don't make one
/// with at most so many edges, the same one.
pub fn straightened(alloc: Global, a: Fsa<Pair>, edges: usize) -> Result<Fsa<Pair>, AllocError>
    ensures letters { IfOk result (λ m. (x : Pair) → UsesLetter m x → UsesLetter a x) }
    ensures language { IfOk result (λ m. (w : List Pair) → Accepts m w ↔ Accepts a w) }
{
    match straight(alloc, &a, edges)? {
        Some(straight) => reduced(alloc, &straight),
        None => Ok(a),
    }
}

/// A transducer that accepts the same lists of pairs, each on one path, with at most so many edges. None where the given one is like that
/// already, and where few steps don't make one.
pub fn straight(alloc: Global, a: &Fsa<Pair>, edges: usize) -> Result<Option<Fsa<Pair>>, AllocError>
    ensures letters { IfOk result (λ found. IfSome found (λ m. (x : Pair) → UsesLetter m x → UsesLetter a.now x)) }
    ensures language { IfOk result (λ found. IfSome found (λ m. (w : List Pair) → Accepts m w ↔ Accepts a.now w)) }
{
    if is_straight(alloc, a)? {
        return Ok(None);
    }
    let steps = a
        .edges()
        .len()
        .saturating_mul(STEPS_FOR_AN_EDGE)
        .saturating_add(STEPS);
    let Some(straight) = determine_within(alloc, a, steps)? else {
        return Ok(None);
    };
    if straight.edges().len() > edges {
        return Ok(None);
    }
    Ok(Some(straight))
}

/// Whether each list of pairs has one path already: each edge reads a pair, and no two that leave a state read the same one.
fn is_straight(alloc: Global, a: &Fsa<Pair>) -> Result<bool, AllocError> {
    let mut leaving = Vec::with_capacity(alloc, a.edges().len())?;
    for edge in a.edges() {
        let Some(pair) = edge.letter else {
            return Ok(false);
        };
        leaving.push((edge.from, pair))?;
    }
    leaving.sort_unstable();
    Ok(
        leaving
            .iter()
            .zip(leaving.iter().skip(1))
            .all(|(one, next)| one != next),
    )
}

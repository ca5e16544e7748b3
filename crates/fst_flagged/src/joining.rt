ghost use Rattle.std.specs.Prelude.{◌≡◌, ◌+◌, ◌≤◌, ◌⊎◌, IfOk, IfSome, List};
ghost use Rattle.word_relations.specs.Relations.{AreSame};
ghost use Rattle.fsm_base.specs.declared.letters.Sym.{Sym};
ghost use Rattle.fst_flagged.specs.Conditions.{first};
ghost use Rattle.fst_flagged.specs.Flagged.{FlaggedRelates, UsesLetters};
ghost use Rattle.fst_flagged.specs.Images.{most};

use crate::condition::{FIRST, joined};
use crate::flagged::Flagged;
use crate::images::Renumbered;
use fst_algebra::substituted;
use std::alloc::{AllocError, Global};

/// What either of two relates. The conditions of the second have their places behind those of the first. None where there are more than
/// numbers.
pub fn union(alloc: Global, a: &Flagged, b: &Flagged) -> Result<Option<Flagged>, AllocError>
    ensures letters { IfOk result (λ kept. IfSome kept (λ f. (symbols : List Sym) → UsesLetters symbols a.now → UsesLetters symbols b.now → UsesLetters symbols f)) }
    ensures relation { IfOk result (λ kept. IfSome kept (λ f. AreSame (FlaggedRelates f) (λ u w. FlaggedRelates a.now u w ⊎ FlaggedRelates b.now u w))) }
{
    let front = a.conditions.as_slice();
    let rest = b.conditions.as_slice();
    let Some(by) = numbers_for(front.len(), rest.len()) else {
        return Ok(None);
    };
    let second = substituted(alloc, &b.net, &Renumbered { by })?;
    let net = fsa_rational::union(alloc, &a.net, &second)?;
    let conditions = joined(alloc, front, rest)?;
    Ok(Some(Flagged { net, conditions }))
}

/// The most conditions that there are numbers for.
const MOST: usize = (u32::MAX - FIRST) as usize;

/// By how much the numbers of conditions are raised that follow others, where there are numbers for all of them.
fn numbers_for(front: usize, rest: usize) -> Option<u32>
    ensures { IfSome result (λ by. (by ≡ front) × (first + (front + rest) ≤ most)) }
{
    if front > MOST || rest > MOST - front {
        return None;
    }
    Some(front as u32)
}

ghost use Rattle.std.specs.Prelude.{◌≡◌, ◌∷◌, ◌↔◌, Contains, IfOk, Some, slice_get};
ghost use Rattle.fsm_base.specs.declared.letters.Bound.{Bound};
ghost use Rattle.fsm_base.specs.declared.letters.Pair.{Pair as Letter};
ghost use Rattle.word_relations.specs.Words.{IsOver};
ghost use Rattle.expr_meaning.specs.Operators.{inner};
ghost use Rattle.pair_test.specs.Marks.{AreAt};
ghost use Rattle.pair_test.specs.Tests.{IsSpelled, edge_before, placed_letters};

use crate::spelled::Spelled;
use fsm_base::Pair;
use indexmap::IndexSet;
use std::alloc::{AllocError, Global};

/// The pairs, each once, to be found again by a hash.
pub fn set_of(alloc: Global, pairs: &[Pair]) -> Result<IndexSet<Pair>, AllocError>
    ensures { IfOk result (λ set. (x : Letter) → Contains set.keys x ↔ Contains pairs.now x) }
{
    let mut set = IndexSet::new(alloc);
    'pairs: for pair in pairs {
        set.insert(*pair)?;
    }
    Ok(set)
}

/// The place of a pair that is one of these.
fn place_in(set: &IndexSet<Pair>, pair: Pair) -> usize
    requires { Contains set.now.keys pair }
    ensures { slice_get set.now.keys result ≡ Some pair }
{
    match set.get_index_of(&pair) {
        Some(place) => place,
        None => unreachable!(),
    }
}

/// The place of the edge, and then those of the pairs of a string.
fn places_of(alloc: Global, set: &IndexSet<Pair>, word: &[Pair]) -> Result<Vec<usize>, AllocError>
    requires { IsOver set.now.keys word.now }
    ensures { IfOk result (λ places. AreAt (placed_letters set.now.keys) places.items (edge_before word.now)) }
{
    let mut places = Vec::new(alloc);
    places.push(set.as_slice().len())?;
    'pairs: for pair in word {
        places.push(place_in(set, *pair))?;
    }
    Ok(places)
}

/// A string of these pairs with the places of its letters.
pub fn spelled_by<'a>(
    alloc: Global,
    set: &IndexSet<Pair>,
    word: &'a [Pair],
) -> Result<Spelled<'a>, AllocError>
    requires { IsOver set.now.keys word.now }
    ensures word { IfOk result (λ s. s.word.now ≡ word.now) }
    ensures places { IfOk result (IsSpelled (placed_letters set.now.keys)) }
{
    let mut turned = Vec::from_slice(alloc, word)?;
    turned.reverse();
    Ok(Spelled {
        word,
        forwards: places_of(alloc, set, word)?,
        backwards: places_of(alloc, set, &turned)?,
    })
}

ghost use Rattle.std.specs.Prelude.{◌≡◌, ◌+◌, ◌<◌, All, IfOk, List, length, take};
ghost use Rattle.fsm_base.specs.declared.letters.Bound.{Bound};
ghost use Rattle.fsm_base.specs.declared.letters.Pair.{Pair};
ghost use Rattle.fsa.specs.Complete.{Accepts};
ghost use Rattle.pair_test.specs.Marks.{AreAt, AreMarks};

use fsa::Dfa;
use fsm_base::{Bound, Pair};
use std::alloc::{AllocError, Global};

/// Of each number of letters, from 1 on, whether so many first letters of a word are in a language. The word's letters are given by
/// their places among those of the automaton.
pub fn beginnings(
    alloc: Global,
    language: &Dfa<Bound<Pair>>,
    places: &[usize],
) -> Result<Vec<bool>, AllocError>
    requires { All (λ place. place < length language.now.letters) places.now }
    ensures { IfOk result (λ marks. (word : List (Bound Pair)) → AreAt language.now.letters places.now word → AreMarks (λ k. Accepts language.now (take (k + 1) word)) (length word) marks.items) }
{
    let mut state = 0;
    let mut marks = Vec::new(alloc);
    let _letters = language.letters();
    'places: for place in places {
        state = language.next(state, *place);
        marks.push(language.is_final(state))?;
    }
    Ok(marks)
}

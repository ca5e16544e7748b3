ghost use Rattle.std.specs.Prelude.{◌≡◌, ◌<◌, ◌≤◌, ◌↔◌, List, [], ◌∷◌, Some, None, IfOk, OnOk, IfSome, IsTrue, length, slice_get};
ghost use Rattle.fsa.specs.Complete.{Accepts};
ghost use Rattle.fsa_product.specs.Search.{AreWordsOf, EndsShortest, IsSearch, HasNext, AddsState};

use fsa::Dfa;
use fsa_explore::NumberSet;
use fsm_base::Letter;
use std::alloc::{AllocError, Global};

/// How a state was reached.
#[derive(Clone, Copy, Debug)]
struct Step {
    /// Which state was before it, by its number in the order in which they were reached.
    before: usize,
    /// The place of the letter that led on from there.
    place: usize,
}

/// The states that were reached, and how.
#[derive(Drop)]
struct Search {
    /// The states, in the order in which they were reached.
    reached: NumberSet,
    /// How each of them was reached: the start by no step.
    steps: Vec<Option<Step>>,
}

/// A shortest word of the language, or None where there is no word. The states are looked at in the order of
/// their distance from the start, each once.
pub fn shortest<L: Letter>(alloc: Global, a: &Dfa<L>) -> Result<Option<Vec<L>>, AllocError>
    ensures none { IfOk result (λ found. found ≡ None ↔ ((w : List L) → ¬ Accepts a.now w)) }
    ensures accepted { IfOk result (λ found. IfSome found (λ word. Accepts a.now word.items)) }
    ensures least { IfOk result (λ found. IfSome found (λ word. (w : List L) → Accepts a.now w → length word.items ≤ length w)) }
{
    let mut search = start(alloc, a.states())?;
    match first_final(a, &mut search)? {
        Some(number) => Ok(Some(word_of(alloc, a.letters(), &search.steps, number)?)),
        None => Ok(None),
    }
}

/// Whether there is no word in the language.
pub fn is_empty<L: Letter>(alloc: Global, a: &Dfa<L>) -> Result<bool, AllocError>
    ensures { IfOk result (λ empty. IsTrue empty ↔ ((w : List L) → ¬ Accepts a.now w)) }
{
    let mut search = start(alloc, a.states())?;
    Ok(first_final(a, &mut search)?.is_none())
}

/// The start alone, reached by no step.
fn start(alloc: Global, states: usize) -> Result<Search, AllocError>
    requires { 0 < states }
    ensures reached { IfOk result (λ search. search.reached ≡ record { bound = states; found = 0 ∷ [] }) }
    ensures steps { IfOk result (λ search. search.steps.items ≡ None ∷ []) }
{
    let mut reached = NumberSet::new(alloc, states)?;
    reached.add(0)?;
    let mut steps = Vec::new(alloc);
    steps.push(None)?;
    Ok(Search { reached, steps })
}

/// Reaches the states in the order of their distance from the start, up to the first final one, and gives its
/// number in that order. Gives None where no final state is reached.
fn first_final<L: Letter>(a: &Dfa<L>, search: &mut Search) -> Result<Option<usize>, AllocError>
    requires states { 0 < length a.now.finals }
    requires reached { search.old.reached ≡ record { bound = length a.now.finals; found = 0 ∷ [] } }
    requires steps { search.old.steps.items ≡ None ∷ [] }
    ensures none { IfOk result (λ found. found ≡ None → (w : List L) → ¬ Accepts a.now w) }
    ensures some { IfOk result (λ found. IfSome found (EndsShortest a.now search.new.steps.items)) }
{
    let mut number = 0;
    while number < search.reached.found().len() {
        let state = search.reached.found()[number];
        if a.is_final(state) {
            return Ok(Some(number));
        }
        reach_next(a, state, number, search)?;
        number += 1;
    }
    Ok(None)
}

/// Reaches the states that the letters lead to from the state with the number.
fn reach_next<L: Letter>(
    a: &Dfa<L>,
    state: usize,
    number: usize,
    search: &mut Search,
) -> Result<(), AllocError>
    requires state { slice_get search.old.reached.found number ≡ Some state }
    requires search { IsSearch a.now number search.old.reached search.old.steps.items }
    ensures search { OnOk result (IsSearch a.now number search.new.reached search.new.steps.items) }
    ensures state { OnOk result (slice_get search.new.reached.found number ≡ Some state) }
    ensures next { OnOk result (HasNext a.now state (length a.now.letters) search.new.reached.found) }
{
    for place in 0..a.letters().len() {
        let step = Step {
            before: number,
            place,
        };
        reach(search, a.next(state, place), step)?;
    }
    Ok(())
}

/// Reaches the state by the step, if it wasn't reached before.
fn reach(search: &mut Search, state: usize, step: Step) -> Result<(), AllocError>
    requires { state < search.old.reached.bound }
    ensures { OnOk result (AddsState search.old.reached search.old.steps.items state step search.new.reached search.new.steps.items) }
{
    if search.reached.contains(state) {
        return Ok(());
    }
    search.reached.add(state)?;
    search.steps.push(Some(step))?;
    Ok(())
}

/// The word by which the state with the number was reached.
fn word_of<L: Letter>(
    alloc: Global,
    letters: &[L],
    steps: &[Option<Step>],
    number: usize,
) -> Result<Vec<L>, AllocError>
    requires number { number < length steps.now }
    requires words { (words : List (List L)) × AreWordsOf letters.now steps.now words }
    ensures { IfOk result (λ word. (words : List (List L)) → AreWordsOf letters.now steps.now words → slice_get words number ≡ Some word.items) }
{
    let mut word = Vec::new(alloc);
    let mut at = number;
    while let Some(step) = steps[at] {
        word.push(letters[step.place])?;
        at = step.before;
    }
    word.reverse();
    Ok(word)
}

ghost use Rattle.std.specs.Prelude.{◌≡◌, ◌<◌, ◌↔◌, List, [], ◌∷◌, Some, None, IfOk, OnOk, IfSome, IsTrue, length, slice_get};
ghost use Rattle.fsa.specs.Complete.{Accepts};
ghost use Rattle.lang_equal.specs.Difference.{IsShortest, IsSought};
ghost use Rattle.lang_equal.specs.Search.{AreWordsOf};
ghost use Rattle.lang_equal.specs.Pairs.{AddsPair, EndsShortest, HasNext, IsFinalPair, IsPair, IsPairSearch, starts};
ghost use Rattle.lang_equal.specs.declared.search.StatePair.{StatePair};

use crate::sought::Sought;
use fsa::Dfa;
use fsm_base::Letter;
use indexmap::IndexSet;
use std::alloc::{AllocError, Global};

/// Two states, one of each automaton.
#[derive(Clone, Copy, Debug, PartialEq, Eq, Hash)]
pub(crate) struct StatePair {
    pub(crate) first: usize,
    pub(crate) second: usize,
}

/// How a pair was reached.
#[derive(Clone, Copy, Debug)]
struct Step {
    /// Which pair was before it, by its number in the order in which they were reached.
    before: usize,
    /// The place of the letter that led on from there.
    place: usize,
}

/// The pairs that were reached, and how.
#[derive(Drop)]
struct Search {
    /// The pairs, in the order in which they were reached.
    reached: IndexSet<StatePair>,
    /// How each of them was reached: the starts by no step.
    steps: Vec<Option<Step>>,
}

/// Two complete automata over the same letters, in the same order, and which words are sought.
#[derive(Drop)]
pub(crate) struct Pairs<'a, L> {
    /// Which words are sought.
    pub(crate) sought: Sought,
    /// The automaton of the first language.
    pub(crate) first: &'a Dfa<L>,
    /// The automaton of the second language.
    pub(crate) second: &'a Dfa<L>,
}

impl<'a, L: Letter> Pairs<'a, L> {
    /// A shortest one of the words that are sought, or None where there is none. The pairs of states are looked at
    /// in the order of their distance from the starts, each once.
    pub(crate) fn shortest(&self, alloc: Global) -> Result<Option<Vec<L>>, AllocError>
        requires { self.now.first.now.letters ≡ self.now.second.now.letters }
        ensures none { IfOk result (λ found. found ≡ None ↔ ((w : List L) → ¬ IsSought self.now.sought (Accepts self.now.first.now) (Accepts self.now.second.now) w)) }
        ensures shortest { IfOk result (λ found. IfSome found (λ word. IsShortest (IsSought self.now.sought (Accepts self.now.first.now) (Accepts self.now.second.now)) word.items)) }
    {
        let mut search = start(alloc)?;
        match self.first_sought(&mut search)? {
            Some(number) => {
                let word = word_of(alloc, self.first.letters(), &search.steps, number)?;
                Ok(Some(word))
            }
            None => Ok(None),
        }
    }

    /// Whether a word that is sought ends at the pair.
    fn is_final(&self, pair: StatePair) -> bool
        requires { IsPair self.now.first.now self.now.second.now pair }
        ensures { IsTrue result ↔ IsFinalPair self.now.sought self.now.first.now self.now.second.now pair }
    {
        let in_first = self.first.is_final(pair.first);
        let in_second = self.second.is_final(pair.second);
        self.sought.has(in_first, in_second)
    }

    /// Reaches the pairs in the order of their distance from the starts, up to the first one at which a word that is
    /// sought ends, and gives its number in that order. Gives None where there is no such pair.
    fn first_sought(&self, search: &mut Search) -> Result<Option<usize>, AllocError>
        requires letters { self.now.first.now.letters ≡ self.now.second.now.letters }
        requires reached { search.old.reached.keys ≡ starts ∷ [] }
        requires steps { search.old.steps.items ≡ None ∷ [] }
        ensures none { IfOk result (λ found. found ≡ None → (w : List L) → ¬ IsSought self.now.sought (Accepts self.now.first.now) (Accepts self.now.second.now) w) }
        ensures some { IfOk result (λ found. IfSome found (EndsShortest self.now.sought self.now.first.now self.now.second.now search.new.steps.items)) }
    {
        // Both have a start.
        let _ = (self.first.states(), self.second.states());
        let mut number = 0;
        while number < search.reached.len() {
            let pair = search.reached[number];
            if self.is_final(pair) {
                return Ok(Some(number));
            }
            self.reach_next(pair, number, search)?;
            number += 1;
        }
        Ok(None)
    }

    /// Reaches the pairs that the letters lead to from the pair with the number.
    fn reach_next(
        &self,
        pair: StatePair,
        number: usize,
        search: &mut Search,
    ) -> Result<(), AllocError>
        requires letters { self.now.first.now.letters ≡ self.now.second.now.letters }
        requires pair { slice_get search.old.reached.keys number ≡ Some pair }
        requires search { IsPairSearch self.now.sought self.now.first.now self.now.second.now number search.old.reached.keys search.old.steps.items }
        ensures search { OnOk result (IsPairSearch self.now.sought self.now.first.now self.now.second.now number search.new.reached.keys search.new.steps.items) }
        ensures pair { OnOk result (slice_get search.new.reached.keys number ≡ Some pair) }
        ensures next { OnOk result (HasNext self.now.first.now self.now.second.now pair (length self.now.first.now.letters) search.new.reached.keys) }
    {
        // Both are complete.
        let _ = (self.first.states(), self.second.states());
        for place in 0..self.first.letters().len() {
            let to = StatePair {
                first: self.first.next(pair.first, place),
                second: self.second.next(pair.second, place),
            };
            let step = Step {
                before: number,
                place,
            };
            reach(search, to, step)?;
        }
        Ok(())
    }
}

/// The starts alone, reached by no step.
fn start(alloc: Global) -> Result<Search, AllocError>
    ensures reached { IfOk result (λ search. search.reached.keys ≡ starts ∷ []) }
    ensures steps { IfOk result (λ search. search.steps.items ≡ None ∷ []) }
{
    let mut reached = IndexSet::new(alloc);
    reached.insert(StatePair {
        first: 0,
        second: 0,
    })?;
    let mut steps = Vec::new(alloc);
    steps.push(None)?;
    Ok(Search { reached, steps })
}

/// Reaches the pair by the step, if it wasn't reached before.
fn reach(search: &mut Search, pair: StatePair, step: Step) -> Result<(), AllocError>
    ensures { OnOk result (AddsPair search.old.reached.keys search.old.steps.items pair step search.new.reached.keys search.new.steps.items) }
{
    if search.reached.insert(pair)? {
        search.steps.push(Some(step))?;
    }
    Ok(())
}

/// The word by which the pair with the number was reached.
fn word_of<L: Letter>(
    alloc: Global,
    letters: &[L],
    steps: &[Option<Step>],
    number: usize,
) -> Result<Vec<L>, AllocError>
    requires number { number < length steps.now }
    requires words { (words : List (List L)) × AreWordsOf letters.now steps.now words }
    ensures { IfOk result (λ word. (words : List (List L)) → AreWordsOf letters.now steps.now words → slice_get words number ≡ Some word.items) }
{
    let mut word = Vec::new(alloc);
    let mut at = number;
    while let Some(step) = steps[at] {
        word.push(letters[step.place])?;
        at = step.before;
    }
    word.reverse();
    Ok(word)
}

ghost use Rattle.std.specs.Prelude.{◌≡◌, ◌<◌, ◌↔◌, ℕ, List, All, IfOk, IsTrue, length};
ghost use Rattle.fsa.specs.Complete.{Accepts};
ghost use Rattle.fsa_product.specs.Pairs.{combined, IsPair, LeadsAt, IsFinalPair};

use fsa::Dfa;
use fsa_explore::{FoundLists, LazyAutomaton, alike_in_both, columns_alike, explore_by_class};
use fsm_base::Letter;
use std::alloc::{AllocError, Global};

/// How the languages of two automata are combined.
#[derive(Clone, Copy, Debug, PartialEq, Eq)]
enum Operation {
    /// The words of both.
    Intersection,
    /// The words of the first that aren't in the second.
    Difference,
}

impl Operation {
    /// What the operation makes of whether a word is in the one language and in the other.
    fn combine(self, in_first: bool, in_second: bool) -> bool
        ensures { IsTrue result ↔ combined self (IsTrue in_first) (IsTrue in_second) }
    {
        match self {
            Operation::Intersection => in_first && in_second,
            Operation::Difference => in_first && !in_second,
        }
    }
}

/// Two automata over the same letters, whose pairs of states are states. What a pair leads to is worked out for one
/// letter of each class of letters that act alike in both.
#[derive(Drop)]
struct Pairs<'a, L> {
    /// Which pairs of states are final.
    operation: Operation,
    /// The first automaton.
    first: &'a Dfa<L>,
    /// The second one, over the same letters.
    second: &'a Dfa<L>,
    /// The place of a letter of each class.
    places: &'a [usize],
    ghost same_letters: { first.now.letters ≡ second.now.letters },
    ghost are_places: { All (λ place. place < length first.now.letters) places.now },
}

impl<'a, L: Letter> LazyAutomaton for Pairs<'a, L> {
    ghost letters = { λ p. length p.places.now };

    ghost is_state = { λ p. IsPair p.first.now p.second.now };

    ghost leads = { λ p. LeadsAt p.first.now p.second.now p.places.now };

    ghost is_final_state = { λ p. IsFinalPair p.operation p.first.now p.second.now };

    fn is_final(&self, pair: &[usize]) -> bool {
        self.operation.combine(self.first.is_final(pair[0]), self.second.is_final(pair[1]))
    }

    fn add_row(
        &mut self,
        _: Global,
        pair: &[usize],
        found: &mut FoundLists,
    ) -> Result<(), AllocError> {
        for place in self.places {
            found.push(&[
                self.first.next(pair[0], *place),
                self.second.next(pair[1], *place),
            ])?;
        }
        Ok(())
    }
}

/// The words that are in both languages. The automata have the same letters, in the same order; of the pairs of
/// their states those are built that the pair of the starts reaches. What a pair leads to is worked out once for all
/// letters that have equal columns in both tables.
pub fn both<L: Letter>(alloc: Global, a: &Dfa<L>, b: &Dfa<L>) -> Result<Dfa<L>, AllocError>
    requires { a.now.letters ≡ b.now.letters }
    ensures letters { IfOk result (λ d. d.letters ≡ a.now.letters) }
    ensures language { IfOk result (λ d. (w : List L) → Accepts d w ↔ (Accepts a.now w × Accepts b.now w)) }
{
    product(alloc, Operation::Intersection, a, b)
}

/// The words of the first language that aren't in the second. The automata have the same letters, in the same
/// order; of the pairs of their states those are built that the pair of the starts reaches, as `both` does.
pub fn minus<L: Letter>(alloc: Global, a: &Dfa<L>, b: &Dfa<L>) -> Result<Dfa<L>, AllocError>
    requires { a.now.letters ≡ b.now.letters }
    ensures letters { IfOk result (λ d. d.letters ≡ a.now.letters) }
    ensures language { IfOk result (λ d. (w : List L) → Accepts d w ↔ (Accepts a.now w × ¬ Accepts b.now w)) }
{
    product(alloc, Operation::Difference, a, b)
}

fn product<L: Letter>(
    alloc: Global,
    operation: Operation,
    a: &Dfa<L>,
    b: &Dfa<L>,
) -> Result<Dfa<L>, AllocError>
    requires { a.now.letters ≡ b.now.letters }
    ensures letters { IfOk result (λ d. d.letters ≡ a.now.letters) }
    ensures language { IfOk result (λ d. (w : List L) → Accepts d w ↔ combined operation (Accepts a.now w) (Accepts b.now w)) }
{
    // Both have a start.
    let _ = (a.states(), b.states());
    let in_first = columns_alike(alloc, a)?;
    let in_second = columns_alike(alloc, b)?;
    let classes = alike_in_both(alloc, &in_first.of_places, &in_second.of_places)?;
    let mut pairs = Pairs {
        operation,
        first: a,
        second: b,
        places: &classes.firsts,
    };
    let built = explore_by_class(alloc, &mut pairs, &[0, 0], &classes)?;
    let letters = Vec::from_slice(alloc, a.letters())?;
    Ok(Dfa::of(letters, built.next, built.finals))
}

ghost use Rattle.std.specs.Prelude.{◌≡◌, ◌↔◌, List, None, IfOk, IfSome};
ghost use Rattle.fsa.specs.Complete.{Accepts};
ghost use Rattle.fsm_base.specs.declared.letters.Sym.{Sym};
ghost use Rattle.lang_equal.specs.Comparison.{IsShortestDifference};
ghost use Rattle.lang_equal.specs.Difference.{Differs, IsOutside, IsShortest};

use crate::search::Pairs;
use crate::sought::Sought;
use fsa::Dfa;
use fsa_subset::determine;
use fsm_base::Sym;
use lang_algebra::Lang;
use std::alloc::{AllocError, Global};

/// How two languages compare.
#[derive(Debug, Drop)]
pub enum Compared {
    /// They have the same words.
    Same,
    /// They don't: a word is in exactly one of them.
    Differ {
        /// Whether it is in the first.
        first: bool,
        /// The word. No word that is in exactly one of them is shorter.
        word: Vec<Sym>,
    },
}

/// Whether the languages have the same words, and else a shortest word that is in exactly one of them. They have the
/// same letters, in the same order. The pairs of states to which words lead are looked at breadth first, up to the
/// first one that tells the languages apart.
pub fn compare(alloc: Global, a: &Lang<Sym>, b: &Lang<Sym>) -> Result<Compared, AllocError>
    requires { a.now.letters ≡ b.now.letters }
    ensures same { IfOk result (λ compared. compared ≡ Compared.Same ↔ ((w : List Sym) → ¬ Differs (Accepts a.now) (Accepts b.now) w)) }
    ensures differ { IfOk result (IsShortestDifference (Accepts a.now) (Accepts b.now)) }
{
    let first = complete(alloc, a)?;
    let second = complete(alloc, b)?;
    let pairs = Pairs {
        sought: Sought::Differing,
        first: &first,
        second: &second,
    };
    match pairs.shortest(alloc)? {
        Some(word) => Ok(Compared::Differ {
            first: a.accepts(&word),
            word,
        }),
        None => Ok(Compared::Same),
    }
}

/// A word of the first language that isn't in the second and that no other such word is shorter than, or None where
/// there is none. They have the same letters, in the same order. The walk is that of [`compare`].
pub fn outside(alloc: Global, a: &Lang<Sym>, b: &Lang<Sym>) -> Result<Option<Vec<Sym>>, AllocError>
    requires { a.now.letters ≡ b.now.letters }
    ensures none { IfOk result (λ found. found ≡ None ↔ ((w : List Sym) → ¬ IsOutside (Accepts a.now) (Accepts b.now) w)) }
    ensures shortest { IfOk result (λ found. IfSome found (λ word. IsShortest (IsOutside (Accepts a.now) (Accepts b.now)) word.items)) }
{
    let first = complete(alloc, a)?;
    let second = complete(alloc, b)?;
    let pairs = Pairs {
        sought: Sought::Outside,
        first: &first,
        second: &second,
    };
    pairs.shortest(alloc)
}

/// The language as a complete automaton over its letters.
fn complete(alloc: Global, language: &Lang<Sym>) -> Result<Dfa<Sym>, AllocError>
    ensures letters { IfOk result (λ d. d.letters ≡ language.now.letters) }
    ensures language { IfOk result (λ d. (w : List Sym) → Accepts d w ↔ Accepts language.now w) }
{
    determine(alloc, &language.to_fsa(alloc)?, language.letters())
}

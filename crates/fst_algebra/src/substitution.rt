ghost use Rattle.std.specs.Prelude.{◌≡◌, ◌↔◌, IfOk, List, Some};
ghost use Rattle.fsa.specs.Automaton.{UsesLetter};
ghost use Rattle.fsa.specs.Language.{Accepts};
ghost use Rattle.fst_algebra.specs.Substituted.{IsSubstituted, image_on_edge, letter_or_epsilon};

use fsa::{Edge, Fsa};
use fsa_rational::same_states;
use fsm_base::Letter;
use std::alloc::{AllocError, Global};

/// What stands in place of a letter.
pub enum Image<M> {
    /// Another letter.
    Letter(M),
    /// No letter: words go on without it.
    Epsilon,
    /// Nothing: words that have the letter are left out.
    Nothing,
}

/// A substitution of letters (Hopcroft, Motwani and Ullman, Introduction to Automata Theory, section 7.3.1).
pub trait Substitution<L, M> {
    ghost use Rattle.fst_algebra.specs.declared.substitution.Image.{Image};

    /// What stands in place of the letter.
    ghost image: { Self → L → Image M };

    /// What stands in place of the letter.
    fn image_of(&self, letter: L) -> Image<M>
        ensures { result ≡ image self.now letter };
}

/// The automaton of the words of `a` with each letter replaced by its image. It has the same states.
pub fn substituted<L: Letter, M: Letter, S: Substitution<L, M>>(
    alloc: Global,
    a: &Fsa<L>,
    substitution: &S,
) -> Result<Fsa<M>, AllocError>
    ensures letters { IfOk result (λ m. (y : M) → UsesLetter m y → (x : L) × UsesLetter a.now x × (S.image substitution.now x ≡ Image.Letter y)) }
    ensures language { IfOk result (λ m. (w : List M) → Accepts m w ↔ IsSubstituted (S.image substitution.now) (Accepts a.now) w) }
{
    let mut m = same_states(alloc, a)?;
    for edge in a.edges() {
        let letter = match image_on_edge(edge.letter, substitution) {
            Image::Letter(letter) => Some(letter),
            Image::Epsilon => None,
            Image::Nothing => continue,
        };
        m.add_edge(Edge {
            from: edge.from,
            letter,
            to: edge.to,
        })?;
    }
    Ok(m)
}

/// What stands in place of an edge's letter. An epsilon edge stays one.
fn image_on_edge<L: Letter, M: Letter, S: Substitution<L, M>>(
    letter: Option<L>,
    substitution: &S,
) -> Image<M>
    ensures { result ≡ image_on_edge (S.image substitution.now) letter }
{
    match letter {
        Some(letter) => substitution.image_of(letter),
        None => Image::Epsilon,
    }
}

/// The letter as an image, or epsilon where there is none.
pub fn letter_or_epsilon<M>(letter: Option<M>) -> Image<M>
    ensures { result ≡ letter_or_epsilon letter }
{
    match letter {
        Some(letter) => Image::Letter(letter),
        None => Image::Epsilon,
    }
}

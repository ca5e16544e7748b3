ghost use Rattle.std.specs.Prelude.{◌≡◌, ◌↔◌, IfOk, List, Option, Some};
ghost use Rattle.fsa.specs.Automaton.{UsesLetter};
ghost use Rattle.fsa.specs.Language.{Accepts};
ghost use Rattle.network_algebra.specs.Renamed.{IsRenamed, letter_or_nothing};

use fsa::Fsa;
use fsm_base::Letter;
use fst_algebra::{Image, Substitution, substituted};
use std::alloc::{AllocError, Global};

/// New names of letters. Some letters may have none.
pub trait Renaming<L, M> {
    /// The letter's new name.
    ghost name: { Self → L → Option M };

    /// The letter's new name.
    fn name_of(&self, letter: L) -> Option<M>
        ensures { result ≡ name self.now letter };
}

/// The automaton of the words of `a` with each letter renamed. Words with a letter that has no new name are left out.
pub fn renamed<L: Letter, M: Letter, R: Renaming<L, M>>(
    alloc: Global,
    a: &Fsa<L>,
    renaming: &R,
) -> Result<Fsa<M>, AllocError>
    ensures letters { IfOk result (λ m. (y : M) → UsesLetter m y → (x : L) × UsesLetter a.now x × (R.name renaming.now x ≡ Some y)) }
    ensures language { IfOk result (λ m. (w : List M) → Accepts m w ↔ IsRenamed (R.name renaming.now) (Accepts a.now) w) }
{
    substituted(alloc, a, &ByName { renaming })
}

/// Each letter's new name in its place, or nothing where it has none.
#[derive(Drop)]
struct ByName<'a, R> {
    /// The new names.
    renaming: &'a R,
}

impl<L, M, R: Renaming<L, M>> Substitution<L, M> for ByName<'_, R> {
    ghost image = { λ it x. letter_or_nothing (R.name it.renaming.now x) };

    fn image_of(&self, letter: L) -> Image<M> {
        match self.renaming.name_of(letter) {
            Some(name) => Image::Letter(name),
            None => Image::Nothing,
        }
    }
}

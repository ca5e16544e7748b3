ghost use Rattle.std.specs.Prelude.{◌≡◌, ◌↔◌, IfOk, List, Some, map};
ghost use Rattle.fsm_base.specs.declared.letters.Bound.{Bound};
ghost use Rattle.fsm_base.specs.declared.letters.Bound.TheVariants.{Inner};
ghost use Rattle.fsm_base.specs.declared.letters.Sym.{Sym};
ghost use Rattle.word_relations.specs.Words.{IsDistinct, IsOver};
ghost use Rattle.fsa.specs.Complete as complete;
ghost use Rattle.fsa.specs.Language.{Accepts};
ghost use Rattle.lang_algebra.specs.Languages.{IsLang};
ghost use Rattle.replace_words.specs.declared.marks.Mark.{Mark};
ghost use Rattle.replace_rules.specs.Letters.{mark_as};

use crate::rows::own_rows;
use fsa::Fsa;
use fsa_rational::{image, star};
use fsm_base::{Bound, Sym};
use lang_algebra::{Lang, one_letter};
use network_algebra::{Renaming, renamed};
use replace_words::Mark;
use std::alloc::{AllocError, Global};

/// As which marks the symbols of a word are written.
#[derive(Clone, Copy, Debug, PartialEq, Eq)]
pub enum Written {
    /// As symbols that are copied.
    Copied,
    /// As symbols of a centre.
    Upper,
    /// As symbols of what replaces a centre.
    Lower,
    /// As symbols of a centre that stand in what replaces it.
    Both,
}

impl Renaming<Sym, Bound<Mark>> for Written {
    ghost use Rattle.std.specs.Prelude.{Some};
    ghost use Rattle.fsm_base.specs.declared.letters.Bound.TheVariants.{Inner};
    ghost use Rattle.replace_rules.specs.Letters.{mark_as};

    ghost name = { λ written symbol. Some (Inner (mark_as written symbol)) };

    fn name_of(&self, letter: Sym) -> Option<Bound<Mark>> {
        Some(Bound::Inner(match *self {
            Written::Copied => Mark::Copy(letter),
            Written::Upper => Mark::Up(letter),
            Written::Lower => Mark::Low(letter),
            Written::Both => Mark::Same(letter),
        }))
    }
}

/// The words of an automaton, with each symbol in one mark.
pub fn in_marks(
    alloc: Global,
    a: &Fsa<Sym>,
    written: Written,
) -> Result<Fsa<Bound<Mark>>, AllocError>
    ensures { IfOk result (λ m. (v : List (Bound Mark)) → Accepts m v ↔ ((w : List Sym) × (v ≡ map (λ s. Inner (mark_as written s)) w) × Accepts a.now w)) }
{
    renamed(alloc, a, &written)
}

/// The language of those words of an automaton that have no other letters than these.
pub fn over(
    alloc: Global,
    marks: &[Bound<Mark>],
    a: &Fsa<Bound<Mark>>,
) -> Result<Lang<Bound<Mark>>, AllocError>
    requires { IsDistinct marks.now }
    ensures { IfOk result (IsLang marks.now (λ w. IsOver marks.now w × Accepts a.now w)) }
{
    let rows = own_rows(alloc, marks)?;
    let kept = image(alloc, a, &rows)?;
    Lang::of(alloc, marks, &kept)
}

/// The automaton of all words of these letters.
pub fn any(alloc: Global, marks: &[Bound<Mark>]) -> Result<Fsa<Bound<Mark>>, AllocError>
    ensures { IfOk result (λ m. (w : List (Bound Mark)) → Accepts m w ↔ IsOver marks.now w) }
{
    let one = one_letter(alloc, marks)?;
    star(alloc, &one)
}

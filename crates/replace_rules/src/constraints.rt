ghost use Rattle.std.specs.Prelude.{◌≡◌, IfOk};
ghost use Rattle.word_relations.specs.Words.{IsOver};
ghost use Rattle.fsa.specs.Complete.{Accepts};
ghost use Rattle.fsa.specs.Language as language;
ghost use Rattle.lang_algebra.specs.Languages.{IsLang};
ghost use Rattle.replace_words.specs.Marked.{KeepsLeft, KeepsRight, LeavesNone};

use crate::langs::{Written, any, in_marks, over};
use fsa::Fsa;
use fsa_rational::concat;
use fsm_base::{Bound, Sym};
use lang_algebra::Lang;
use network_algebra::word;
use replace_words::Mark;
use std::alloc::{AllocError, Global};

/// Those of the words in which each replacement by the place stands behind a word of the first language and before one of the second.
pub fn kept_between(
    alloc: Global,
    place: usize,
    words: &Lang<Bound<Mark>>,
    left: &Lang<Bound<Mark>>,
    right: &Lang<Bound<Mark>>,
) -> Result<Lang<Bound<Mark>>, AllocError>
    requires left { left.now.letters ≡ words.now.letters }
    requires right { right.now.letters ≡ words.now.letters }
    ensures { IfOk result (IsLang words.now.letters (λ w. Accepts words.now w × (KeepsLeft (Accepts left.now) place w × KeepsRight (Accepts right.now) place w))) }
{
    let begun = keeps_left(alloc, place, left)?;
    let ended = keeps_right(alloc, place, right)?;
    let first = words.both(alloc, &begun)?;
    first.both(alloc, &ended)
}

/// The words in which each replacement by the place begins behind a word of the language.
fn keeps_left(
    alloc: Global,
    place: usize,
    left: &Lang<Bound<Mark>>,
) -> Result<Lang<Bound<Mark>>, AllocError>
    ensures { IfOk result (IsLang left.now.letters (λ w. IsOver left.now.letters w × KeepsLeft (Accepts left.now) place w)) }
{
    let marks = left.letters();
    let others = left.complement(alloc)?;
    let wrong = others.to_fsa(alloc)?;
    let open = word(alloc, &[Bound::Inner(Mark::Open(place))])?;
    let any = any(alloc, marks)?;
    let rest = concat(alloc, &open, &any)?;
    let whole = concat(alloc, &wrong, &rest)?;
    let broken = over(alloc, marks, &whole)?;
    broken.complement(alloc)
}

/// The words in which each replacement by the place ends before a word of the language.
fn keeps_right(
    alloc: Global,
    place: usize,
    right: &Lang<Bound<Mark>>,
) -> Result<Lang<Bound<Mark>>, AllocError>
    ensures { IfOk result (IsLang right.now.letters (λ w. IsOver right.now.letters w × KeepsRight (Accepts right.now) place w)) }
{
    let marks = right.letters();
    let others = right.complement(alloc)?;
    let wrong = others.to_fsa(alloc)?;
    let close = word(alloc, &[Bound::Inner(Mark::Close(place))])?;
    let any = any(alloc, marks)?;
    let rest = concat(alloc, &close, &wrong)?;
    let whole = concat(alloc, &any, &rest)?;
    let broken = over(alloc, marks, &whole)?;
    broken.complement(alloc)
}

/// The words in which no word of the centre stands in copied symbols behind a word of the first language and before one of the second.
pub fn leaves_none(
    alloc: Global,
    left: &Lang<Bound<Mark>>,
    centre: &Fsa<Sym>,
    right: &Lang<Bound<Mark>>,
) -> Result<Lang<Bound<Mark>>, AllocError>
    requires { right.now.letters ≡ left.now.letters }
    ensures { IfOk result (IsLang left.now.letters (λ w. IsOver left.now.letters w × LeavesNone (language.Accepts centre.now) (Accepts left.now) (Accepts right.now) w)) }
{
    let marks = left.letters();
    let before = left.to_fsa(alloc)?;
    let copied = in_marks(alloc, centre, Written::Copied)?;
    let behind = right.to_fsa(alloc)?;
    let rest = concat(alloc, &copied, &behind)?;
    let whole = concat(alloc, &before, &rest)?;
    let broken = over(alloc, marks, &whole)?;
    broken.complement(alloc)
}

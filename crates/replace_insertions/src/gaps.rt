ghost use Rattle.std.specs.Prelude.{◌≡◌, IfOk};
ghost use Rattle.word_relations.specs.Words.{IsDistinct, IsOver};
ghost use Rattle.fsa.specs.Complete.{Accepts};
ghost use Rattle.lang_algebra.specs.Languages.{IsLang};
ghost use Rattle.replace_words.specs.Filled.{LeavesNoGap, NoTwo};
ghost use Rattle.replace_insertions.specs.Kinds.{BeginsWith, EndsIn, MeetsNowhere};

use crate::kinds::{MarkKind, marks_of};
use fsa_rational::concat;
use fsm_base::Bound;
use lang_algebra::{Lang, one_letter};
use replace_rules::{any, over};
use replace_words::Mark;
use std::alloc::{AllocError, Global};

/// The words in which no replacement stands directly behind another.
pub fn leaves_no_two(alloc: Global, marks: &[Bound<Mark>]) -> Result<Lang<Bound<Mark>>, AllocError>
    requires { IsDistinct marks.now }
    ensures { IfOk result (IsLang marks.now (λ w. IsOver marks.now w × NoTwo w)) }
{
    let all = over(alloc, marks, &any(alloc, marks)?)?;
    let before = ending_in(alloc, &all, MarkKind::Closing)?;
    let behind = beginning_with(alloc, &all, MarkKind::Opening)?;
    meets_nowhere(alloc, &before, &behind)
}

/// The words in which no place without a replacement stands behind a word of the first language and before one of the second.
pub fn leaves_no_gap(
    alloc: Global,
    left: &Lang<Bound<Mark>>,
    right: &Lang<Bound<Mark>>,
) -> Result<Lang<Bound<Mark>>, AllocError>
    requires { right.now.letters ≡ left.now.letters }
    ensures { IfOk result (IsLang left.now.letters (λ w. IsOver left.now.letters w × LeavesNoGap (Accepts left.now) (Accepts right.now) w)) }
{
    let before = ending_in(alloc, left, MarkKind::Free)?;
    let behind = beginning_with(alloc, right, MarkKind::Free)?;
    meets_nowhere(alloc, &before, &behind)
}

/// The words of a language that end in a mark of the kind.
fn ending_in(
    alloc: Global,
    lang: &Lang<Bound<Mark>>,
    kind: MarkKind,
) -> Result<Lang<Bound<Mark>>, AllocError>
    ensures { IfOk result (IsLang lang.now.letters (λ w. Accepts lang.now w × EndsIn kind w)) }
{
    let marks = lang.letters();
    let any = any(alloc, marks)?;
    let found = marks_of(alloc, marks, kind)?;
    let one = one_letter(alloc, &found)?;
    let whole = concat(alloc, &any, &one)?;
    let ended = over(alloc, marks, &whole)?;
    lang.both(alloc, &ended)
}

/// The words of a language that begin with a mark of the kind.
fn beginning_with(
    alloc: Global,
    lang: &Lang<Bound<Mark>>,
    kind: MarkKind,
) -> Result<Lang<Bound<Mark>>, AllocError>
    ensures { IfOk result (IsLang lang.now.letters (λ w. Accepts lang.now w × BeginsWith kind w)) }
{
    let marks = lang.letters();
    let any = any(alloc, marks)?;
    let found = marks_of(alloc, marks, kind)?;
    let one = one_letter(alloc, &found)?;
    let whole = concat(alloc, &one, &any)?;
    let begun = over(alloc, marks, &whole)?;
    lang.both(alloc, &begun)
}

/// The words that aren't a word of the first language and then one of the second.
fn meets_nowhere(
    alloc: Global,
    before: &Lang<Bound<Mark>>,
    behind: &Lang<Bound<Mark>>,
) -> Result<Lang<Bound<Mark>>, AllocError>
    requires { behind.now.letters ≡ before.now.letters }
    ensures { IfOk result (IsLang before.now.letters (λ w. IsOver before.now.letters w × MeetsNowhere (Accepts before.now) (Accepts behind.now) w)) }
{
    let broken = before.concat(alloc, behind)?;
    broken.complement(alloc)
}

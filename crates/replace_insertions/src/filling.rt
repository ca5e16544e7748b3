ghost use Rattle.std.specs.Prelude.{◌≡◌, IfOk};
ghost use Rattle.word_relations.specs.Words.{IsDistinct, IsOver};
ghost use Rattle.fsa.specs.Complete as complete;
ghost use Rattle.fsa.specs.Language.{Accepts};
ghost use Rattle.lang_algebra.specs.Languages.{IsLang};
ghost use Rattle.replace_words.specs.Filled.{LeavesNoGap};
ghost use Rattle.replace_insertions.specs.Marked.{AreAskedIn, IsAskedAt};

use crate::gaps::{leaves_no_gap, leaves_no_two};
use fsa::Fsa;
use fsm_base::Bound;
use lang_algebra::Lang;
use replace_rules::{LangContext, Side, any, kept_between, left_words, over, right_words};
use replace_words::Mark;
use std::alloc::{AllocError, Global};

/// Those of the words of an automaton that have what insertions ask at each of the contexts, no two of them side by side.
pub fn filled_words(
    alloc: Global,
    marks: &[Bound<Mark>],
    optional: bool,
    side: Side,
    contexts: &[LangContext],
    words: &Fsa<Bound<Mark>>,
) -> Result<Lang<Bound<Mark>>, AllocError>
    requires { IsDistinct marks.now }
    ensures { IfOk result (IsLang marks.now (λ w. (IsOver marks.now w × Accepts words.now w) × AreAskedIn side optional contexts.now w)) }
{
    let well = over(alloc, marks, words)?;
    let once = leaves_no_two(alloc, marks)?;
    let mut kept = well.both(alloc, &once)?;
    for (number, context) in contexts.iter().enumerate() {
        kept = filled_at(alloc, optional, side, number, context, &kept)?;
    }
    Ok(kept)
}

/// Those of the words that have what insertions ask at the context of this number. All that is asked there is put together first, which
/// is small, so that the words are gone through once.
fn filled_at(
    alloc: Global,
    optional: bool,
    side: Side,
    number: usize,
    context: &LangContext,
    words: &Lang<Bound<Mark>>,
) -> Result<Lang<Bound<Mark>>, AllocError>
    ensures { IfOk result (IsLang words.now.letters (λ w. complete.Accepts words.now w × IsAskedAt side optional number context.now w)) }
{
    let marks = words.letters();
    let all = over(alloc, marks, &any(alloc, marks)?)?;
    let asked = asked_at(alloc, optional, side, number, context, &all)?;
    words.both(alloc, &asked)
}

/// Those of the words that have what insertions ask at the context of this number, by one constraint after another.
fn asked_at(
    alloc: Global,
    optional: bool,
    side: Side,
    number: usize,
    context: &LangContext,
    words: &Lang<Bound<Mark>>,
) -> Result<Lang<Bound<Mark>>, AllocError>
    ensures { IfOk result (IsLang words.now.letters (λ w. complete.Accepts words.now w × IsAskedAt side optional number context.now w)) }
{
    let marks = words.letters();
    let left = left_words(alloc, marks, side, &context.left)?;
    let right = right_words(alloc, marks, side, &context.right)?;
    let kept = kept_between(alloc, number, words, &left, &right)?;
    if optional {
        return Ok(kept);
    }
    without_gaps(alloc, &kept, &left, &right)
}

/// Those of the words in which no place without an insertion stands behind a word of the one language and before one of the
/// other.
fn without_gaps(
    alloc: Global,
    words: &Lang<Bound<Mark>>,
    left: &Lang<Bound<Mark>>,
    right: &Lang<Bound<Mark>>,
) -> Result<Lang<Bound<Mark>>, AllocError>
    requires left { left.now.letters ≡ words.now.letters }
    requires right { right.now.letters ≡ words.now.letters }
    ensures { IfOk result (IsLang words.now.letters (λ w. complete.Accepts words.now w × LeavesNoGap (complete.Accepts left.now) (complete.Accepts right.now) w)) }
{
    let whole = leaves_no_gap(alloc, left, right)?;
    words.both(alloc, &whole)
}

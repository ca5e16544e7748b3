ghost use Rattle.std.specs.Prelude.{◌≡◌, ℕ, IfOk, Some, slice_get};
ghost use Rattle.word_relations.specs.Words.{IsDistinct, IsOver};
ghost use Rattle.fsa.specs.Complete as complete;
ghost use Rattle.fsa.specs.Language.{Accepts};
ghost use Rattle.lang_algebra.specs.Languages.{IsLang};
ghost use Rattle.replace_rules.specs.declared.rules.LangContext.{LangContext};
ghost use Rattle.replace_directed.specs.Marked.{IsKeptAt, IsKeptBy};

use crate::constraints::{none_between, none_other};
use crate::middles::centre_words;
use crate::shapes::{beginning_with, others_in};
use directed_words::{Length, MarkKind};
use fsa::Fsa;
use fsm_base::Bound;
use lang_algebra::Lang;
use replace_rules::{LangContext, LangMap, Side, kept_between, left_words, over, right_words};
use replace_words::Mark;
use std::alloc::{AllocError, Global};

/// Those of the words of an automaton that keep what the rule asks at each of the contexts.
pub fn kept_words(
    alloc: Global,
    marks: &[Bound<Mark>],
    size: Length,
    maps: &[LangMap],
    contexts: &[LangContext],
    words: &Fsa<Bound<Mark>>,
) -> Result<Lang<Bound<Mark>>, AllocError>
    requires { IsDistinct marks.now }
    ensures { IfOk result (IsLang marks.now (λ w. (IsOver marks.now w × Accepts words.now w) × ((k : ℕ) (p : LangContext) → slice_get contexts.now k ≡ Some p → IsKeptBy maps.now size k p w))) }
{
    let centre = centre_words(alloc, marks, maps)?;
    let copies = beginning_with(alloc, &centre, MarkKind::Copied)?;
    let others = others_in(alloc, size, &centre)?;
    kept_at_each(alloc, marks, size, contexts, &copies, &others, words)
}

/// Those of the words of an automaton that keep what the rule asks at each of the contexts, where matches that bar a copy, or a
/// replacement, are of these two languages.
fn kept_at_each(
    alloc: Global,
    marks: &[Bound<Mark>],
    size: Length,
    contexts: &[LangContext],
    copies: &Lang<Bound<Mark>>,
    others: &Lang<Bound<Mark>>,
    words: &Fsa<Bound<Mark>>,
) -> Result<Lang<Bound<Mark>>, AllocError>
    requires distinct { IsDistinct marks.now }
    requires copies { copies.now.letters ≡ marks.now }
    requires others { others.now.letters ≡ marks.now }
    ensures { IfOk result (IsLang marks.now (λ w. (IsOver marks.now w × Accepts words.now w) × ((k : ℕ) (p : LangContext) → slice_get contexts.now k ≡ Some p → IsKeptAt (complete.Accepts copies.now) (complete.Accepts others.now) size k p w))) }
{
    let mut kept = over(alloc, marks, words)?;
    for (number, context) in contexts.iter().enumerate() {
        kept = kept_at(alloc, size, number, context, copies, others, &kept)?;
    }
    Ok(kept)
}

/// Those of the words that keep what the rule asks at the context of this number, where matches that bar a copy, or a replacement, are of
/// these two languages.
fn kept_at(
    alloc: Global,
    size: Length,
    number: usize,
    context: &LangContext,
    copies: &Lang<Bound<Mark>>,
    others: &Lang<Bound<Mark>>,
    words: &Lang<Bound<Mark>>,
) -> Result<Lang<Bound<Mark>>, AllocError>
    requires copies { copies.now.letters ≡ words.now.letters }
    requires others { others.now.letters ≡ words.now.letters }
    ensures { IfOk result (IsLang words.now.letters (λ w. complete.Accepts words.now w × IsKeptAt (complete.Accepts copies.now) (complete.Accepts others.now) size number context.now w)) }
{
    let marks = words.letters();
    let left = left_words(alloc, marks, Side::UpUp, &context.left)?;
    let right = right_words(alloc, marks, Side::UpUp, &context.right)?;
    let between = kept_between(alloc, number, words, &left, &right)?;
    let uncopied = none_between(alloc, &left, copies, &right)?;
    let first = between.both(alloc, &uncopied)?;
    let unbarred = none_other(alloc, size, &left, others, &right)?;
    first.both(alloc, &unbarred)
}

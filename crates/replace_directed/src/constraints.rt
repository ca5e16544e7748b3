ghost use Rattle.std.specs.Prelude.{◌≡◌, IfOk};
ghost use Rattle.word_relations.specs.Words.{IsOver};
ghost use Rattle.fsa.specs.Complete.{Accepts};
ghost use Rattle.lang_algebra.specs.Languages.{IsLang};
ghost use Rattle.directed_words.specs.Marked.{NoneBetween};
ghost use Rattle.replace_directed.specs.Marked.{NoneOther};

use crate::shapes::beginning_with;
use directed_words::{Length, MarkKind};
use fsm_base::Bound;
use lang_algebra::Lang;
use replace_words::Mark;
use std::alloc::{AllocError, Global};

/// The words in which no word of the middle language stands behind one of the left language and before one of the right.
pub fn none_between(
    alloc: Global,
    left: &Lang<Bound<Mark>>,
    middle: &Lang<Bound<Mark>>,
    right: &Lang<Bound<Mark>>,
) -> Result<Lang<Bound<Mark>>, AllocError>
    requires middle { middle.now.letters ≡ left.now.letters }
    requires right { right.now.letters ≡ left.now.letters }
    ensures { IfOk result (IsLang left.now.letters (λ w. IsOver left.now.letters w × NoneBetween (Accepts left.now) (Accepts middle.now) (Accepts right.now) w)) }
{
    let rest = middle.concat(alloc, right)?;
    let broken = left.concat(alloc, &rest)?;
    broken.complement(alloc)
}

/// The same for matches that go before a replacement. Of shorter ones those count behind which the replacement goes on.
pub fn none_other(
    alloc: Global,
    size: Length,
    left: &Lang<Bound<Mark>>,
    others: &Lang<Bound<Mark>>,
    right: &Lang<Bound<Mark>>,
) -> Result<Lang<Bound<Mark>>, AllocError>
    requires others { others.now.letters ≡ left.now.letters }
    requires right { right.now.letters ≡ left.now.letters }
    ensures { IfOk result (IsLang left.now.letters (λ w. IsOver left.now.letters w × NoneOther size (Accepts left.now) (Accepts others.now) (Accepts right.now) w)) }
{
    match size {
        Length::Longest => none_between(alloc, left, others, right),
        Length::Shortest => {
            let inside = beginning_with(alloc, right, MarkKind::Inside)?;
            none_between(alloc, left, others, &inside)
        }
    }
}

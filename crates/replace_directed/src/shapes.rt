ghost use Rattle.std.specs.Prelude.{◌≡◌, ◌↔◌, ◌∷◌, [], ◌++◌, true, IfOk, List, Contains};
ghost use Rattle.fsm_base.specs.declared.letters.Bound.{Bound};
ghost use Rattle.word_relations.specs.Words.{IsOver};
ghost use Rattle.fsa.specs.Complete as complete;
ghost use Rattle.fsa.specs.Language.{Accepts};
ghost use Rattle.lang_algebra.specs.Languages.{IsLang};
ghost use Rattle.replace_words.specs.declared.marks.Mark.{Mark};
ghost use Rattle.directed_words.specs.Kinds.{is_of, BeginsWith};
ghost use Rattle.directed_words.specs.Marked.{GoesBeyond, StaysInside};
ghost use Rattle.replace_directed.specs.Marked.{IsOther};

use crate::kinds::marks_of;
use directed_words::{Length, MarkKind};
use fsa::Fsa;
use fsa_rational::concat;
use fsm_base::Bound;
use lang_algebra::{Lang, one_letter};
use replace_rules::{any, over};
use replace_words::Mark;
use std::alloc::{AllocError, Global};

/// The words of a language that begin with a mark of the kind.
pub fn beginning_with(
    alloc: Global,
    lang: &Lang<Bound<Mark>>,
    kind: MarkKind,
) -> Result<Lang<Bound<Mark>>, AllocError>
    ensures { IfOk result (IsLang lang.now.letters (λ w. complete.Accepts lang.now w × BeginsWith kind w)) }
{
    let marks = lang.letters();
    let rest = any(alloc, marks)?;
    let shape = starting(alloc, marks, kind, &rest)?;
    shaped(alloc, lang, &shape)
}

/// The words of a language that go on behind the replacement with which they begin, or, for the shortest match, don't end it.
pub fn others_in(
    alloc: Global,
    size: Length,
    lang: &Lang<Bound<Mark>>,
) -> Result<Lang<Bound<Mark>>, AllocError>
    ensures { IfOk result (IsLang lang.now.letters (λ w. complete.Accepts lang.now w × IsOther size w)) }
{
    match size {
        Length::Longest => going_beyond(alloc, lang),
        Length::Shortest => staying_inside(alloc, lang),
    }
}

/// The words of a language that begin with a replacement and have a symbol of the upper side behind one.
fn going_beyond(alloc: Global, lang: &Lang<Bound<Mark>>) -> Result<Lang<Bound<Mark>>, AllocError>
    ensures { IfOk result (IsLang lang.now.letters (λ w. complete.Accepts lang.now w × GoesBeyond w)) }
{
    let marks = lang.letters();
    let rest = any(alloc, marks)?;
    let symbol = reaching(alloc, marks, MarkKind::Upper, &rest)?;
    let closed = reaching(alloc, marks, MarkKind::Closing, &symbol)?;
    let shape = starting(alloc, marks, MarkKind::Opening, &closed)?;
    shaped(alloc, lang, &shape)
}

/// The words of a language that begin with a replacement and don't end it.
fn staying_inside(alloc: Global, lang: &Lang<Bound<Mark>>) -> Result<Lang<Bound<Mark>>, AllocError>
    ensures { IfOk result (IsLang lang.now.letters (λ w. complete.Accepts lang.now w × StaysInside w)) }
{
    let marks = lang.letters();
    let within = marks_of(alloc, marks, MarkKind::NotClosing)?;
    let rest = any(alloc, &within)?;
    let shape = starting(alloc, marks, MarkKind::Opening, &rest)?;
    shaped(alloc, lang, &shape)
}

/// The words of a language that an automaton accepts, too.
fn shaped(
    alloc: Global,
    lang: &Lang<Bound<Mark>>,
    shape: &Fsa<Bound<Mark>>,
) -> Result<Lang<Bound<Mark>>, AllocError>
    ensures { IfOk result (IsLang lang.now.letters (λ w. complete.Accepts lang.now w × Accepts shape.now w)) }
{
    let marks = lang.letters();
    let wanted = over(alloc, marks, shape)?;
    lang.both(alloc, &wanted)
}

/// The words of any of the marks, then one of the kind, and then a word of the rest.
fn reaching(
    alloc: Global,
    marks: &[Bound<Mark>],
    kind: MarkKind,
    rest: &Fsa<Bound<Mark>>,
) -> Result<Fsa<Bound<Mark>>, AllocError>
    ensures { IfOk result (λ m. (w : List (Bound Mark)) → Accepts m w ↔ ((y : List (Bound Mark)) × (e : Bound Mark) × (v : List (Bound Mark)) × (w ≡ y ++ e ∷ v) × IsOver marks.now y × Contains marks.now e × (is_of kind e ≡ true) × Accepts rest.now v)) }
{
    let before = any(alloc, marks)?;
    let found = starting(alloc, marks, kind, rest)?;
    concat(alloc, &before, &found)
}

/// The words of one mark of the kind and then a word of the rest.
fn starting(
    alloc: Global,
    marks: &[Bound<Mark>],
    kind: MarkKind,
    rest: &Fsa<Bound<Mark>>,
) -> Result<Fsa<Bound<Mark>>, AllocError>
    ensures { IfOk result (λ m. (w : List (Bound Mark)) → Accepts m w ↔ ((e : Bound Mark) × (v : List (Bound Mark)) × (w ≡ e ∷ v) × Contains marks.now e × (is_of kind e ≡ true) × Accepts rest.now v)) }
{
    let first = one_of(alloc, marks, kind)?;
    concat(alloc, &first, rest)
}

/// The words of one of the marks, of the kind.
fn one_of(
    alloc: Global,
    marks: &[Bound<Mark>],
    kind: MarkKind,
) -> Result<Fsa<Bound<Mark>>, AllocError>
    ensures { IfOk result (λ m. (w : List (Bound Mark)) → Accepts m w ↔ ((e : Bound Mark) × (w ≡ e ∷ []) × Contains marks.now e × (is_of kind e ≡ true))) }
{
    let found = marks_of(alloc, marks, kind)?;
    one_letter(alloc, &found)
}

ghost use Rattle.std.specs.Prelude.{◌≡◌, ◌↔◌, true, IfOk, Contains};
ghost use Rattle.fsm_base.specs.declared.letters.Bound.{Bound};
ghost use Rattle.replace_words.specs.declared.marks.Mark.{Mark};
ghost use Rattle.replace_insertions.specs.Kinds.{is_free, opens, closes, is_of};

use fsm_base::Bound;
use replace_words::Mark;
use std::alloc::{AllocError, Global};

/// Which marks are looked at.
#[derive(Clone, Copy, Debug, PartialEq, Eq)]
pub enum MarkKind {
    /// The edge of the word, and symbols that are copied.
    Free,
    /// Brackets with which a replacement begins.
    Opening,
    /// Brackets with which one ends.
    Closing,
}

impl MarkKind {
    /// Whether a mark is of this kind.
    fn has(self, mark: Bound<Mark>) -> bool
        ensures { result ≡ is_of self mark }
    {
        match self {
            MarkKind::Free => is_free(mark),
            MarkKind::Opening => opens(mark),
            MarkKind::Closing => closes(mark),
        }
    }
}

/// Whether it is the edge of the word or a symbol that is copied.
fn is_free(mark: Bound<Mark>) -> bool
    ensures { result ≡ is_free mark }
{
    match mark {
        Bound::Edge | Bound::Inner(Mark::Copy(_)) => true,
        Bound::Inner(_) => false,
    }
}

/// Whether a replacement begins with it.
fn opens(mark: Bound<Mark>) -> bool
    ensures { result ≡ opens mark }
{
    match mark {
        Bound::Inner(Mark::Open(_)) => true,
        Bound::Edge | Bound::Inner(_) => false,
    }
}

/// Whether one ends with it.
fn closes(mark: Bound<Mark>) -> bool
    ensures { result ≡ closes mark }
{
    match mark {
        Bound::Inner(Mark::Close(_)) => true,
        Bound::Edge | Bound::Inner(_) => false,
    }
}

/// Those of the marks that are of the kind.
pub fn marks_of(
    alloc: Global,
    marks: &[Bound<Mark>],
    kind: MarkKind,
) -> Result<Vec<Bound<Mark>>, AllocError>
    ensures { IfOk result (λ found. (m : Bound Mark) → Contains found.items m ↔ (Contains marks.now m × (is_of kind m ≡ true))) }
{
    let mut found = Vec::new(alloc);
    for mark in marks {
        if kind.has(*mark) {
            found.push(*mark)?;
        }
    }
    Ok(found)
}

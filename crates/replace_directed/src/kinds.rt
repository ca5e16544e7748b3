ghost use Rattle.std.specs.Prelude.{◌≡◌, ◌↔◌, true, IfOk, Contains};
ghost use Rattle.fsm_base.specs.declared.letters.Bound.{Bound};
ghost use Rattle.replace_words.specs.declared.marks.Mark.{Mark};
ghost use Rattle.directed_words.specs.Kinds.{is_of};

use directed_words::MarkKind;
use fsm_base::Bound;
use replace_words::Mark;
use std::alloc::{AllocError, Global};

/// Those of the marks that are of the kind.
pub fn marks_of(
    alloc: Global,
    marks: &[Bound<Mark>],
    kind: MarkKind,
) -> Result<Vec<Bound<Mark>>, AllocError>
    ensures { IfOk result (λ found. (m : Bound Mark) → Contains found.items m ↔ (Contains marks.now m × (is_of kind m ≡ true))) }
{
    let mut found = Vec::new(alloc);
    for mark in marks {
        if kind.has(*mark) {
            found.push(*mark)?;
        }
    }
    Ok(found)
}

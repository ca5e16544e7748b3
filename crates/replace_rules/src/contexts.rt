ghost use Rattle.std.specs.Prelude.{IfOk};
ghost use Rattle.word_relations.specs.Words.{IsDistinct, IsOver};
ghost use Rattle.fsa.specs.Complete.{Accepts};
ghost use Rattle.lang_algebra.specs.Languages.{IsLang};
ghost use Rattle.expr_meaning.specs.Operators.{HasPrefix, HasSuffix};
ghost use Rattle.replace_words.specs.Marked.{reading, on_left, on_right};

use crate::langs::{any, over};
use crate::rows::{left_rows, right_rows};
use fsa_rational::{concat, preimage};
use fsm_base::{Bound, Sym};
use lang_algebra::Lang;
use regex_ast::Side;
use replace_words::Mark;
use std::alloc::{AllocError, Global};

/// The words of marks behind which a left context holds: what it reads of them, on the side of the operator, has an end in it.
pub fn left_words(
    alloc: Global,
    marks: &[Bound<Mark>],
    side: Side,
    context: &Lang<Bound<Sym>>,
) -> Result<Lang<Bound<Mark>>, AllocError>
    requires { IsDistinct marks.now }
    ensures { IfOk result (IsLang marks.now (λ x. IsOver marks.now x × HasSuffix (Accepts context.now) (reading (on_left side) x))) }
{
    let rows = left_rows(alloc, marks, side)?;
    let words = context.to_fsa(alloc)?;
    let ends = preimage(alloc, &words, &rows)?;
    let any = any(alloc, marks)?;
    let whole = concat(alloc, &any, &ends)?;
    over(alloc, marks, &whole)
}

/// The words of marks before which a right context holds: what it reads of them has a beginning in it.
pub fn right_words(
    alloc: Global,
    marks: &[Bound<Mark>],
    side: Side,
    context: &Lang<Bound<Sym>>,
) -> Result<Lang<Bound<Mark>>, AllocError>
    requires { IsDistinct marks.now }
    ensures { IfOk result (IsLang marks.now (λ z. IsOver marks.now z × HasPrefix (Accepts context.now) (reading (on_right side) z))) }
{
    let rows = right_rows(alloc, marks, side)?;
    let words = context.to_fsa(alloc)?;
    let fronts = preimage(alloc, &words, &rows)?;
    let any = any(alloc, marks)?;
    let whole = concat(alloc, &fronts, &any)?;
    over(alloc, marks, &whole)
}

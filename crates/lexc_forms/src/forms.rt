ghost use Rattle.std.specs.Prelude.{◌≡◌, ◌<◌, false, IfOk, IfSome, MatchOption, length};
ghost use Rattle.std.specs.List.{list_any, position};
ghost use Rattle.lexc_forms.specs.Letters.{is_colon};
ghost use Rattle.lexc_forms.specs.Forms.{HasNoSides, HasSides, IsForm};

use crate::copies::copy_of;
use crate::cutting::cut;
use crate::letters::Letter;
use crate::sharing::SharedTexts;
use crate::table::DeclaredSymbols;
use regex_ast::{Form, Raw};
use std::alloc::{AllocError, Global};

/// The letters of the two sides of a word.
#[derive(Clone, Copy)]
struct Sides<'a> {
    /// The upper side.
    upper: &'a [Letter],
    /// The lower side.
    lower: &'a [Letter],
}

/// The place of the first `:` that isn't escaped.
fn colon(letters: &[Letter]) -> Option<usize>
    ensures first { result ≡ position is_colon letters.now }
    ensures within { IfSome result (λ place. place < length letters.now) }
{
    letters.iter().position(|letter| letter.is_colon())
}

/// Whether there is a `:` that isn't escaped.
fn has_colon(letters: &[Letter]) -> bool
    ensures { result ≡ list_any is_colon letters.now }
{
    letters.iter().any(|letter| letter.is_colon())
}

/// The letters of the two sides of a word; `None` where it has a second `:`.
fn split_sides(letters: &[Letter]) -> Option<Sides<'_>>
    ensures { MatchOption result (HasNoSides letters.now) (λ s. HasSides letters.now s.upper.now s.lower.now) }
{
    let Some(place) = colon(letters) else {
        return Some(Sides {
            upper: letters,
            lower: letters,
        });
    };
    let (upper, rest) = letters.split_at(place);
    let (_, lower) = rest.split_at(1);
    if has_colon(lower) {
        return None;
    }
    Some(Sides { upper, lower })
}

/// What a word without `:` adds to the two sides of a path, which is cut once.
fn same_sides(
    alloc: Global,
    declared: &DeclaredSymbols,
    texts: &mut SharedTexts,
    word: &[Letter],
) -> Result<Form<Raw>, AllocError>
    requires { list_any is_colon word.now ≡ false }
    ensures { IfOk result (IsForm declared.now word.now) }
{
    let upper = cut(alloc, declared, texts, word)?;
    let lower = copy_of(alloc, &upper)?;
    Ok(Form::Sides { upper, lower })
}

/// What a word adds to the two sides of a path. A `:` that isn't escaped stands between the sides, either of which may be
/// empty; where there is none, both sides are the word. `None` where there is a second one.
pub fn read_form(
    alloc: Global,
    declared: &DeclaredSymbols,
    texts: &mut SharedTexts,
    word: &[Letter],
) -> Result<Option<Form<Raw>>, AllocError>
    ensures { IfOk result (λ form. MatchOption form (HasNoSides word.now) (IsForm declared.now word.now)) }
{
    if !has_colon(word) {
        return Ok(Some(same_sides(alloc, declared, texts, word)?));
    }
    let Some(sides) = split_sides(word) else {
        return Ok(None);
    };
    let upper = cut(alloc, declared, texts, sides.upper)?;
    let lower = cut(alloc, declared, texts, sides.lower)?;
    Ok(Some(Form::Sides { upper, lower }))
}

ghost use Rattle.std.specs.Prelude.{◌≡◌, ◌↔◌, IfOk, IsTrue, map};
ghost use Rattle.body_equality.specs.Renumbered.{renumbered};
ghost use Rattle.body_equality.specs.RenumberedLexicons.{renumbered_entry, renumbered_form, renumbered_lexicon};
ghost use Rattle.name_resolution.specs.Plain.{entry_of, form_of, lexicon_of};

use crate::equality::same_expr;
use crate::pieces::{same_maybe, same_side, same_text};
use crate::renumbering::Renumbering;
use regex_ast::{Atom, Entry, Form, Lexicon};
use std::alloc::{AllocError, Global};

/// Whether a form, renumbered, is another one.
fn same_form(
    alloc: Global,
    other: &Form<Atom>,
    form: &Form<Atom>,
    numbers: &Renumbering,
) -> Result<bool, AllocError>
    ensures { IfOk result (λ same. IsTrue same ↔ (form_of other.now ≡ renumbered_form numbers.now form.now)) }
{
    match (other, form) {
        (
            Form::Sides {
                upper: other_upper,
                lower: other_lower,
            },
            Form::Sides { upper, lower },
        ) => Ok(same_side(other_upper, upper, numbers) && same_side(other_lower, lower, numbers)),
        (Form::Pairs(other), Form::Pairs(expr)) => same_expr(alloc, other, expr, numbers),
        _ => Ok(false),
    }
}

/// Whether an entry, renumbered, is another one.
fn same_entry(
    alloc: Global,
    other: &Entry<Atom>,
    entry: &Entry<Atom>,
    numbers: &Renumbering,
) -> Result<bool, AllocError>
    ensures { IfOk result (λ same. IsTrue same ↔ (entry_of other.now ≡ renumbered_entry numbers.now entry.now)) }
{
    let same = same_form(alloc, &other.form, &entry.form, numbers)?;
    Ok(same && same_maybe(&other.next, &entry.next))
}

/// Whether entries, renumbered, are other ones.
fn same_entries(
    alloc: Global,
    others: &[Entry<Atom>],
    entries: &[Entry<Atom>],
    numbers: &Renumbering,
) -> Result<bool, AllocError>
    ensures { IfOk result (λ same. IsTrue same ↔ (map entry_of others.now ≡ map (renumbered_entry numbers.now) entries.now)) }
{
    if others.len() != entries.len() {
        return Ok(false);
    }
    'places: for place in 0..entries.len() {
        if !same_entry(alloc, &others[place], &entries[place], numbers)? {
            return Ok(false);
        }
    }
    Ok(true)
}

/// Whether a lexicon, renumbered, is another one.
fn same_lexicon(
    alloc: Global,
    other: &Lexicon<Atom>,
    lexicon: &Lexicon<Atom>,
    numbers: &Renumbering,
) -> Result<bool, AllocError>
    ensures { IfOk result (λ same. IsTrue same ↔ (lexicon_of other.now ≡ renumbered_lexicon numbers.now lexicon.now)) }
{
    let same = same_entries(alloc, &other.entries, &lexicon.entries, numbers)?;
    Ok(same && same_text(&other.name, &lexicon.name))
}

/// Whether lexicons, with their leaves renumbered, are other ones. Time and memory are linear in their sizes.
pub fn same_lexicons(
    alloc: Global,
    others: &[Lexicon<Atom>],
    lexicons: &[Lexicon<Atom>],
    numbers: &Renumbering,
) -> Result<bool, AllocError>
    ensures { IfOk result (λ same. IsTrue same ↔ (map lexicon_of others.now ≡ map (renumbered_lexicon numbers.now) lexicons.now)) }
{
    if others.len() != lexicons.len() {
        return Ok(false);
    }
    'places: for place in 0..lexicons.len() {
        if !same_lexicon(alloc, &others[place], &lexicons[place], numbers)? {
            return Ok(false);
        }
    }
    Ok(true)
}

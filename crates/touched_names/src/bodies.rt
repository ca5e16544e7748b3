ghost use Rattle.std.specs.Prelude.{◌≡◌, ◌↔◌, ℕ, Contains, IfOk, IsTrue, length};
ghost use Rattle.std.specs.List.{flat_map, list_any};
ghost use Rattle.regex_ast.specs.Terms.{term};
ghost use Rattle.expr_leaves.specs.Alphabet.{uses_alphabet};
ghost use Rattle.expr_leaves.specs.Leaves.{seen};
ghost use Rattle.body_equality.specs.Renumbered.{renumbered};
ghost use Rattle.name_resolution.specs.Symbols.{terms_behind};
ghost use Rattle.project_definitions.specs.Bodies.{mapped_body};
ghost use Rattle.project_definitions.specs.Plain.{body_of};
ghost use Rattle.project_definitions.specs.Referring.{body_places, place_in, places_in};
ghost use Rattle.touched_names.specs.Bodies.{uses_symbols};
ghost use Rattle.touched_names.specs.Places.{HasMarked, IsMarked};

use body_equality::{Renumbering, same_expr, same_grammar, same_lexicons};
use expr_leaves::{leaves, uses_alphabet};
use name_resolution::expressions;
use project_definitions::Body;
use regex_ast::{Atom, Expr};
use std::alloc::{AllocError, Global};

/// Whether a body, with its leaves renumbered, is another one. Lines don't matter.
pub(crate) fn same_body(
    alloc: Global,
    other: &Body<Atom>,
    body: &Body<Atom>,
    numbers: &Renumbering,
) -> Result<bool, AllocError>
    ensures { IfOk result (λ same. IsTrue same ↔ (body_of other.now ≡ mapped_body (renumbered numbers.now) (body_of body.now))) }
{
    match (other, body) {
        (Body::Xfst(other), Body::Xfst(expr)) => same_expr(alloc, other, expr, numbers),
        (Body::Lexc(others), Body::Lexc(lexicons)) => same_lexicons(
            alloc, others, lexicons, numbers,
        ),
        (Body::Twolc(other), Body::Twolc(grammar)) => same_grammar(alloc, other, grammar, numbers),
        _ => Ok(false),
    }
}

/// Whether one of these expressions uses the alphabet.
fn one_uses(exprs: &[&Expr<Atom>]) -> bool
    ensures { result ≡ list_any (λ e. uses_alphabet e) (terms_behind exprs.now) }
{
    'exprs: for expr in exprs {
        if uses_alphabet(*expr) {
            return true;
        }
    }
    false
}

/// Whether an expression of a body uses the alphabet: a grammar reads its own symbols alone.
pub(crate) fn body_uses(alloc: Global, body: &Body<Atom>) -> Result<bool, AllocError>
    ensures { IfOk result (λ uses. uses ≡ uses_symbols (body_of body.now)) }
{
    match body {
        Body::Xfst(expr) => Ok(uses_alphabet(expr)),
        Body::Lexc(lexicons) => Ok(one_uses(&expressions(alloc, lexicons)?)),
        Body::Twolc(_) => Ok(false),
    }
}

/// Whether a leaf is the name of a marked place.
fn is_marked(leaf: &Atom, marks: &[bool]) -> bool
    ensures { IsTrue result ↔ HasMarked marks.now (place_in (length marks.now) leaf.now) }
{
    match *leaf {
        Atom::Sym(_) => false,
        Atom::Name(place) => match marks.get(place as usize) {
            Some(mark) => *mark,
            None => false,
        },
    }
}

/// Whether one of these leaves is.
fn one_is_marked(leaves: &[&Atom], marks: &[bool]) -> bool
    ensures { IsTrue result ↔ HasMarked marks.now (flat_map (place_in (length marks.now)) (seen leaves.now)) }
{
    'leaves: for leaf in leaves {
        if is_marked(*leaf, marks) {
            return true;
        }
    }
    false
}

/// Whether an expression refers to a marked place.
fn expr_refers(alloc: Global, expr: &Expr<Atom>, marks: &[bool]) -> Result<bool, AllocError>
    ensures { IfOk result (λ refers. IsTrue refers ↔ HasMarked marks.now (places_in (length marks.now) (term expr.now))) }
{
    Ok(one_is_marked(&leaves(alloc, expr)?, marks))
}

/// Whether one of these expressions does.
fn one_refers(alloc: Global, exprs: &[&Expr<Atom>], marks: &[bool]) -> Result<bool, AllocError>
    ensures { IfOk result (λ refers. IsTrue refers ↔ HasMarked marks.now (flat_map (places_in (length marks.now)) (terms_behind exprs.now))) }
{
    'exprs: for expr in exprs {
        if expr_refers(alloc, *expr, marks)? {
            return Ok(true);
        }
    }
    Ok(false)
}

/// Whether a body refers to a marked place: a grammar has no names.
pub(crate) fn refers_to_marked(
    alloc: Global,
    body: &Body<Atom>,
    marks: &[bool],
) -> Result<bool, AllocError>
    ensures { IfOk result (λ refers. IsTrue refers ↔ HasMarked marks.now (body_places (length marks.now) (body_of body.now))) }
{
    match body {
        Body::Xfst(expr) => expr_refers(alloc, expr, marks),
        Body::Lexc(lexicons) => one_refers(alloc, &expressions(alloc, lexicons)?, marks),
        Body::Twolc(_) => Ok(false),
    }
}

ghost use Rattle.std.specs.Prelude.{◌≡◌, ◌↔◌, IfOk, IsTrue, map};
ghost use Rattle.regex_ast.specs.Terms.{term};
ghost use Rattle.expr_leaves.specs.Mapped.{mapped};
ghost use Rattle.body_equality.specs.Renumbered.{renumbered};
ghost use Rattle.body_equality.specs.Rows.{token_by};

use crate::renumbering::Renumbering;
use crate::token::Token;
use crate::walk::row_of;
use regex_ast::{Atom, Expr};
use std::alloc::{AllocError, Global};

/// Whether a token, its leaf renumbered, is another one.
fn same_token(other: Token, token: Token, numbers: &Renumbering) -> bool
    ensures { IsTrue result ↔ (other ≡ token_by (renumbered numbers.now) token) }
{
    match (other, token) {
        (Token::Leaf(other), Token::Leaf(leaf)) => numbers.same_leaf(other, leaf),
        (Token::Node(other), Token::Node(node)) => other == node,
        (Token::Item(other), Token::Item(item)) => other == item,
        (Token::End(other), Token::End(list)) => other == list,
        _ => false,
    }
}

/// Whether a row, its leaves renumbered, is another one.
fn same_row(others: &[Token], row: &[Token], numbers: &Renumbering) -> bool
    ensures { IsTrue result ↔ (others.now ≡ map (token_by (renumbered numbers.now)) row.now) }
{
    if others.len() != row.len() {
        return false;
    }
    'places: for place in 0..row.len() {
        if !same_token(others[place], row[place], numbers) {
            return false;
        }
    }
    true
}

/// Whether an expression, with its leaves renumbered, is another one. Time and memory are linear in their sizes.
pub fn same_expr(
    alloc: Global,
    other: &Expr<Atom>,
    expr: &Expr<Atom>,
    numbers: &Renumbering,
) -> Result<bool, AllocError>
    ensures { IfOk result (λ same. IsTrue same ↔ (term other.now ≡ mapped (renumbered numbers.now) (term expr.now))) }
{
    let others = row_of(alloc, other)?;
    let row = row_of(alloc, expr)?;
    Ok(same_row(&others, &row, numbers))
}

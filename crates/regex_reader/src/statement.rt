ghost use Rattle.std.specs.Prelude.{◌≡◌, ◌+◌, length};
ghost use Rattle.regex_reader.specs.Verdicts.{placed, line_of, IsChecked, IsVerdict};

use crate::brackets::is_too_deep;
use crate::findings::{Findings, find_in_expression};
use crate::form::form_of;
use regex_ast::{Define, Expr, Raw, ReadError, Why};
use regex_parser::read_tokens;
use regex_tokens::{Place, Token};
use std::alloc::Global;

/// The definition of one statement.
///
/// # Errors
///
/// `Fault` at the line of its first token, and `Memory` where there was no memory.
pub fn statement(
    alloc: Global,
    tokens: &[Token],
    places: &[Place],
) -> Result<Define<Raw>, ReadError>
    requires { length tokens.now ≡ length places.now }
    ensures { IsVerdict (placed tokens.now places.now) result }
{
    let line = first_line(places);
    if is_too_deep(tokens) {
        return Err(ReadError::Fault {
            line,
            why: Why::LimitNesting,
        });
    }
    let Some(form) = form_of(tokens, places) else {
        return Err(ReadError::Fault {
            line,
            why: Why::Statement,
        });
    };
    let (expr, found) = checked(alloc, line, form.expression)?;
    if found.high_power {
        return Err(ReadError::Fault {
            line,
            why: Why::LimitPower,
        });
    }
    if found.large_rule {
        return Err(ReadError::Fault {
            line,
            why: Why::LimitRule,
        });
    }
    let name = form.name.clone()?;
    Ok(Define { name, line, expr })
}

/// The line of the first place.
pub fn first_line(places: &[Place]) -> u32
    ensures { result ≡ line_of places.now }
{
    match places.first() {
        Some(place) => place.line,
        None => 0,
    }
}

/// The expression of which these are the tokens, and what is found in it.
///
/// # Errors
///
/// `Fault` at this line with `Statement` where they are none, or where `.#.` stands outside of a context.
pub fn checked(
    alloc: Global,
    line: u32,
    tokens: &[Token],
) -> Result<(Expr<Raw>, Findings), ReadError>
    ensures { IsChecked line tokens.now result }
{
    let Some(expr) = read_tokens(alloc, tokens)? else {
        return Err(ReadError::Fault {
            line,
            why: Why::Statement,
        });
    };
    let found = find_in_expression(&expr, false);
    if found.misplaced_edge {
        return Err(ReadError::Fault {
            line,
            why: Why::Statement,
        });
    }
    Ok((expr, found))
}

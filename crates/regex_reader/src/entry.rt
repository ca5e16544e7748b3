ghost use Rattle.std.specs.Prelude.{◌≡◌, ◌+◌, ◌-◌, ◌<◌, ◌^◌};
ghost use Rattle.std.specs.List.{list_any};
ghost use Rattle.regex_tokens.specs.Cuts.{newlines};
ghost use Rattle.regex_reader.specs.Files.{is_ruling, ExpressionSays};
ghost use Rattle.regex_reader.specs.Reads.{IsReadExpression};
ghost use Rattle.regex_reader.specs.Verdicts.{IsEntryAnswer};

use crate::brackets::is_too_deep;
use crate::statement::checked;
use regex_ast::{Expr, Raw, ReadError, Why};
use regex_tokens::{Comments, Ending, Operator, Token, tokens};
use std::alloc::Global;

/// Reads a text that begins in this line, counted from 1, as one expression without `->`, `(->)`, a directed arrow and
/// `=>`, as an entry of a lexicon has one (Beesley and Karttunen, Finite State Morphology, 2003, chapters 2 and 4). A
/// comment begins with `!` alone there.
///
/// # Errors
///
/// The first of these that it has:
///
/// - `Token`, at a place where no token begins, with the line of the place; all others have the line that was passed;
/// - `LimitNesting`, where more than 64 brackets are open round a token;
/// - `Statement`, where it is no such expression, or `.#.` stands in it;
/// - `LimitPower`, where a power `^n` has a number above 255.
///
/// `Memory` where there was no memory.
pub fn read_expr(alloc: Global, text: &str, line: u32) -> Result<Expr<Raw>, ReadError>
    requires { line + newlines text.now < 2 ^ 32 - 1 }
    ensures { IsReadExpression text.now line result }
{
    let found = tokens(alloc, text, line, Comments::OfEntries)?;
    if let Ending::NoToken { line: at } = found.ending {
        return Err(ReadError::Fault {
            line: at,
            why: Why::Token,
        });
    }
    entry(alloc, line, &found.tokens)
}

/// The expression of an entry of which these are the tokens.
fn entry(alloc: Global, line: u32, tokens: &[Token]) -> Result<Expr<Raw>, ReadError>
    ensures { IsEntryAnswer line tokens.now result }
{
    if is_too_deep(tokens) {
        return Err(ReadError::Fault {
            line,
            why: Why::LimitNesting,
        });
    }
    if has_ruling(tokens) {
        return Err(ReadError::Fault {
            line,
            why: Why::Statement,
        });
    }
    let (expr, found) = checked(alloc, line, tokens)?;
    if found.high_power {
        return Err(ReadError::Fault {
            line,
            why: Why::LimitPower,
        });
    }
    Ok(expr)
}

fn has_ruling(tokens: &[Token]) -> bool
    ensures { result ≡ list_any is_ruling tokens.now }
{
    tokens.iter().any(|token| is_ruling(token))
}

/// Whether a token is an arrow or `=>`.
fn is_ruling(token: &Token) -> bool
    ensures { result ≡ is_ruling token.now }
{
    matches!(
        token,
        Token::Operator(
            Operator::Arrow
                | Operator::Optional
                | Operator::LeftLongest
                | Operator::LeftShortest
                | Operator::RightLongest
                | Operator::RightShortest
                | Operator::Only
        )
    )
}

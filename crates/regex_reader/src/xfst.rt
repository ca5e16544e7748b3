ghost use Rattle.std.specs.Prelude.{◌≡◌, ◌+◌, ◌-◌, ◌<◌, ◌^◌, length, false, IfSome};
ghost use Rattle.std.specs.List.{list_any, position};
ghost use Rattle.regex_tokens.specs.Cuts.{newlines};
ghost use Rattle.regex_reader.specs.Files.{Says, is_semicolon};
ghost use Rattle.regex_reader.specs.Reads.{IsAnswer, IsRead};
ghost use Rattle.regex_reader.specs.Verdicts.{placed, IsEnd};

use crate::brackets::is_too_deep;
use crate::statement::{first_line, statement};
use regex_ast::{Define, Raw, ReadError, Why};
use regex_tokens::{Comments, Ending, Operator, Place, Token, tokens};
use std::alloc::Global;

/// Reads the definitions of a text, which is a sequence of statements `define NAME EXPRESSION ;` (Beesley and
/// Karttunen, Finite State Morphology, 2003, chapters 2 and 3).
///
/// A statement goes from its first token to its `;`, or to the end of the text. `define` and NAME are runs without
/// escape. NAME has 1 to 64 characters, each an ASCII letter or digit or a character above U+007F, the first no
/// digit, and no `(` follows it without a blank.
///
/// # Errors
///
/// The first statement's fault, of these the first one that it has:
///
/// - `Token`, at a place where no token begins, with the line of the place; all others have the line of the
///   statement's first token, counted from 1;
/// - `LimitNesting`, where more than 64 brackets are open round a token;
/// - `Statement`, where it has another form or no `;`, or `.#.` stands outside of a context;
/// - `LimitPower`, where a power `^n` has a number above 255;
/// - `LimitRule`, where a set of rules, directed or not, has more than 64 mappings or contexts, or a `=>` more than 64
///   contexts.
///
/// `Memory` where there was no memory.
pub fn read_xfst(alloc: Global, text: &str) -> Result<Vec<Define<Raw>>, ReadError>
    requires { newlines text.now + 1 < 2 ^ 32 - 1 }
    ensures { IsRead text.now result }
{
    let found = tokens(alloc, text, 1, Comments::OfDefinitions)?;
    statements(alloc, &found.tokens, &found.places, found.ending)
}

/// What tokens say that end so.
fn statements(
    alloc: Global,
    tokens: &[Token],
    places: &[Place],
    ending: Ending,
) -> Result<Vec<Define<Raw>>, ReadError>
    requires { length tokens.now ≡ length places.now }
    ensures { IsAnswer (Says (placed tokens.now places.now) ending) result }
{
    let mut defines = Vec::new(alloc);
    let mut rest = tokens;
    let mut rest_places = places;
    'statements: while let Some(last) = semicolon(rest) {
        let (one, behind) = rest.split_at(last + 1);
        let (one_places, places_behind) = rest_places.split_at(last + 1);
        defines.push(statement(alloc, one, one_places)?)?;
        rest = behind;
        rest_places = places_behind;
    }
    ended(rest, rest_places, ending)?;
    Ok(defines)
}

/// The place of the first `;`, counted from 0.
fn semicolon(tokens: &[Token]) -> Option<usize>
    ensures first { result ≡ position is_semicolon tokens.now }
    ensures within { IfSome result (λ place. place < 2 ^ 64 - 1) }
{
    tokens.iter().position(|token| is_semicolon(token))
}

fn is_semicolon(token: &Token) -> bool
    ensures { result ≡ is_semicolon token.now }
{
    matches!(token, Token::Operator(Operator::Semicolon))
}

/// What tokens without a `;` are which end so: none, or a fault.
fn ended(tokens: &[Token], places: &[Place], ending: Ending) -> Result<(), ReadError>
    requires same { length tokens.now ≡ length places.now }
    requires none { list_any is_semicolon tokens.now ≡ false }
    ensures { IsEnd (placed tokens.now places.now) ending result }
{
    if let Ending::NoToken { line } = ending {
        return Err(ReadError::Fault {
            line,
            why: Why::Token,
        });
    }
    if tokens.is_empty() {
        return Ok(());
    }
    let why = if is_too_deep(tokens) {
        Why::LimitNesting
    } else {
        Why::Statement
    };
    let line = first_line(places);
    Err(ReadError::Fault { line, why })
}

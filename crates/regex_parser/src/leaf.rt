ghost use Rattle.std.specs.Prelude.{◌≡◌, IfOk, map};
ghost use Rattle.std.specs.Option.{option_map};
ghost use Rattle.regex_ast.specs.Terms.{term};
ghost use Rattle.regex_ast.specs.declared.expr.Raw.TheVariants.{Quoted as quoted_symbol};
ghost use Rattle.regex_grammar.specs.Grammar.{run_term, quoted_term, braced_term};
ghost use Rattle.regex_parser.specs.Levels.{leaf_at};

use crate::parsed::Parsed;
use crate::parser::Read;
use fsm_base::Text;
use regex_ast::{Expr, Raw};
use regex_tokens::{Letters, Operator, Run, Token};
use std::alloc::{AllocError, Global};

/// Reads level 1 without brackets.
#[tactic(auto, unfolding(crate::specs::Levels::leaf_at))]
pub fn leaf(alloc: Global, tokens: &[Token]) -> Result<Read<'_, Parsed>, AllocError>
    ensures { IfOk result (λ read. option_map (λ x. (term x.0.expr, x.1.now)) read ≡ leaf_at tokens.now) }
{
    match tokens.split_first() {
        Some((Token::Run(run), rest)) => Ok(Some((
            Parsed {
                expr: run_expr(run)?,
            },
            rest,
        ))),
        Some((Token::Quoted(text), rest)) => Ok(Some((
            Parsed {
                expr: quoted_expr(text)?,
            },
            rest,
        ))),
        Some((Token::Braced(letters), rest)) => Ok(Some((
            Parsed {
                expr: braced_expr(alloc, letters)?,
            },
            rest,
        ))),
        Some((Token::Operator(Operator::Question), rest)) => Ok(Some((
            Parsed { expr: Expr::Any },
            rest,
        ))),
        Some((Token::Operator(Operator::Edge), rest)) => Ok(Some((
            Parsed { expr: Expr::Edge },
            rest,
        ))),
        _ => Ok(None),
    }
}

/// The expression of a run.
fn run_expr(run: &Run) -> Result<Expr<Raw>, AllocError>
    ensures { IfOk result (λ expr. term expr ≡ run_term run.now.text run.now.escaped) }
{
    if run.escaped {
        return Ok(Expr::Atom(Raw::Quoted(run.text.clone()?)));
    }
    if run.text.as_str() == "0" {
        return Ok(Expr::Empty);
    }
    Ok(Expr::Atom(Raw::Run(run.text.clone()?)))
}

/// The expression of a quoted text.
fn quoted_expr(text: &Text) -> Result<Expr<Raw>, AllocError>
    ensures { IfOk result (λ expr. term expr ≡ quoted_term text.now) }
{
    if text.as_str().is_empty() {
        return Ok(Expr::Empty);
    }
    Ok(Expr::Atom(Raw::Quoted(text.clone()?)))
}

/// The expression of the characters between two braces.
fn braced_expr(alloc: Global, letters: &Letters) -> Result<Expr<Raw>, AllocError>
    ensures { IfOk result (λ expr. term expr ≡ braced_term letters.now) }
{
    let texts = letters.texts();
    if texts.is_empty() {
        return Ok(Expr::Empty);
    }
    Ok(Expr::Letters(symbols(alloc, texts)?))
}

/// Each text as a symbol.
fn symbols(alloc: Global, texts: &[Text]) -> Result<Vec<Raw>, AllocError>
    ensures { IfOk result (λ symbols. symbols.items ≡ map quoted_symbol texts.now) }
{
    let mut symbols = Vec::new(alloc);
    'symbols: for text in texts {
        symbols.push(Raw::Quoted(text.clone()?))?;
    }
    Ok(symbols)
}

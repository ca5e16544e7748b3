ghost use Rattle.std.specs.Prelude.{◌≡◌, IfOk};
ghost use Rattle.std.specs.Option.{option_map};
ghost use Rattle.twolc_expressions.specs.Reading.{IsFound, expression_in, pair_term};
ghost use Rattle.twolc_grammar.specs.Expressions.{IsExpression, IsPart};
ghost use Rattle.twolc_grammar.specs.Sections.{tokens_of};

use crate::names::KnownNames;
use crate::operand::as_xfst;
use crate::over_pairs::over_pairs;
use regex_ast::{Expr, PairPart, Raw};
use regex_parser::read_tokens;
use std::alloc::{AllocError, Global};
use twolc_tokens::Placed;

/// The expression over pairs that the tokens are where these names are known; `None` where they are none.
pub fn expression(
    alloc: Global,
    names: &KnownNames,
    tokens: &[Placed],
) -> Result<Option<Expr<PairPart<Raw>>>, AllocError>
    ensures { IfOk result (λ found. IsFound (IsExpression names.now (tokens_of tokens.now)) (option_map pair_term found)) }
{
    expression_in(alloc, names, tokens)
}

/// The part of a context that the tokens are, which may be left out; `None` where they are none.
pub fn part(
    alloc: Global,
    names: &KnownNames,
    tokens: &[Placed],
) -> Result<Option<Expr<PairPart<Raw>>>, AllocError>
    ensures { IfOk result (λ found. IsFound (IsPart names.now (tokens_of tokens.now)) (option_map pair_term found)) }
{
    if tokens.is_empty() {
        return Ok(Some(Expr::Empty));
    }
    expression(alloc, names, tokens)
}

/// The same by the steps to it: the tokens of xfst, their tree, and its leaves.
fn expression_in(
    alloc: Global,
    names: &KnownNames,
    tokens: &[Placed],
) -> Result<Option<Expr<PairPart<Raw>>>, AllocError>
    ensures { IfOk result (λ found. option_map pair_term found ≡ expression_in names.now (tokens_of tokens.now)) }
{
    let Some(tokens) = as_xfst(alloc, tokens)? else {
        return Ok(None);
    };
    let Some(expr) = read_tokens(alloc, &tokens)? else {
        return Ok(None);
    };
    over_pairs(alloc, names, &expr)
}

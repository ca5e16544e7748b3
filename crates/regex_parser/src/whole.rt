ghost use Rattle.std.specs.Prelude.{IfOk};
ghost use Rattle.std.specs.Option.{option_map};
ghost use Rattle.regex_ast.specs.Terms.{term};
ghost use Rattle.regex_grammar.specs.Whole.{IsReading};

use crate::parser::expression;
use regex_ast::{Expr, Raw};
use regex_tokens::Token;
use std::alloc::{AllocError, Global};

/// The most brackets that may be open round a token.
pub const MOST_OPEN: u32 = 64;

/// The expression that the tokens are, all of them; `None` where they aren't one, or where more than 64 brackets are open
/// round a token. Its operators are as in Beesley and Karttunen, Finite State Morphology, 2003, chapters 2 and 3. A run is
/// a [`Raw::Run`], or with an escape a [`Raw::Quoted`]; the number of a power above 255 is kept as 256. Fails without
/// memory, and where 2^32 backslashes or more stand in a row.
pub fn read_tokens(alloc: Global, tokens: &[Token]) -> Result<Option<Expr<Raw>>, AllocError>
    ensures { IfOk result (λ found. IsReading tokens.now (option_map term found)) }
{
    let Some((parsed, rest)) = expression(alloc, tokens, MOST_OPEN + 1)? else {
        return Ok(None);
    };
    if !rest.is_empty() {
        return Ok(None);
    }
    Ok(Some(parsed.into_expr()))
}

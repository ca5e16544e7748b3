ghost use Rattle.std.specs.Prelude.{IfOk};
ghost use Rattle.std.specs.Option.{option_map};
ghost use Rattle.twolc_expressions.specs.Reading.{IsFound};
ghost use Rattle.twolc_grammar.specs.Sections.{tokens_of};
ghost use Rattle.twolc_grammar.specs.Statements.{AreContexts};
ghost use Rattle.twolc_reader.specs.RuleReading.{context_views};

use crate::separator::{Separator, split_at_separator};
use regex_ast::{Context, PairPart, Raw};
use std::alloc::{AllocError, Global};
use twolc_expressions::{KnownNames, part};
use twolc_tokens::Placed;

/// The contexts that the tokens are, each with its `;`; `None` where they are none.
pub fn contexts_in(
    alloc: Global,
    names: &KnownNames,
    tokens: &[Placed],
) -> Result<Option<Vec<Context<PairPart<Raw>>>>, AllocError>
    ensures { IfOk result (λ found. IsFound (AreContexts names.now (tokens_of tokens.now)) (option_map (λ cs. context_views cs.items) found)) }
{
    let mut found = Vec::new(alloc);
    let mut rest = tokens;
    'contexts: while !rest.is_empty() {
        let Some((left, behind)) = split_at_separator(rest, Separator::Underscore) else {
            return Ok(None);
        };
        let Some((right, more)) = split_at_separator(behind, Separator::Semicolon) else {
            return Ok(None);
        };
        let Some(left) = part(alloc, names, left)? else {
            return Ok(None);
        };
        let Some(right) = part(alloc, names, right)? else {
            return Ok(None);
        };
        found.push(Context { left, right })?;
        rest = more;
    }
    Ok(Some(found))
}

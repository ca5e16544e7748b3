ghost use Rattle.std.specs.Prelude.{IfOk};
ghost use Rattle.std.specs.Option.{option_map};
ghost use Rattle.twolc_expressions.specs.Reading.{IsFound};
ghost use Rattle.twolc_grammar.specs.Sections.{tokens_of};
ghost use Rattle.twolc_grammar.specs.Statements.{IsStatement, definition, in_definitions};
ghost use Rattle.twolc_reader.specs.StatementReading.{definition_view};

use crate::split::{split_end, split_name};
use fsm_base::Text;
use regex_ast::{PairDefine, Raw};
use std::alloc::{AllocError, Global};
use twolc_expressions::{KnownNames, expression, has_edge};
use twolc_tokens::Placed;

/// The definition that the tokens are where these names are known; `None` where they are none.
pub fn definition_in(
    alloc: Global,
    names: &KnownNames,
    tokens: &[Placed],
) -> Result<Option<PairDefine<Raw>>, AllocError>
    ensures { IfOk result (λ found. IsFound (λ d. IsStatement names.now in_definitions (tokens_of tokens.now) (definition d)) (option_map definition_view found)) }
{
    let Some((name, behind)) = split_name(tokens) else {
        return Ok(None);
    };
    let Some(front) = split_end(behind) else {
        return Ok(None);
    };
    if has_edge(front) {
        return Ok(None);
    }
    let Some(expr) = expression(alloc, names, front)? else {
        return Ok(None);
    };
    let name = Text::of(alloc, name.as_str())?;
    Ok(Some(PairDefine { name, expr }))
}

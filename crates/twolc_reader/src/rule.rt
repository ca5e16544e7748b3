ghost use Rattle.std.specs.Prelude.{◌≡◌, IfOk, IfSome};
ghost use Rattle.std.specs.Option.{option_map};
ghost use Rattle.twolc_expressions.specs.Reading.{IsFound};
ghost use Rattle.twolc_grammar.specs.Sections.{tokens_of};
ghost use Rattle.twolc_grammar.specs.Statements.{IsStatement, in_rules, rule};
ghost use Rattle.twolc_reader.specs.RuleReading.{rule_view};

use crate::contexts::contexts_in;
use crate::head::{split_arrow, split_atom, split_quoted};
use fsm_base::Text;
use regex_ast::{Raw, TwoLevelRule};
use std::alloc::{AllocError, Global};
use twolc_expressions::{KnownNames, centre_in};
use twolc_tokens::Placed;

/// The rule that the tokens are where these names are known; `None` where they are none. It keeps the line that is passed, in
/// which the first of them begins.
pub fn rule_in(
    alloc: Global,
    names: &KnownNames,
    line: u32,
    tokens: &[Placed],
) -> Result<Option<TwoLevelRule<Raw>>, AllocError>
    ensures says { IfOk result (λ found. IsFound (λ r. IsStatement names.now in_rules (tokens_of tokens.now) (rule r)) (option_map rule_view found)) }
    ensures at { IfOk result (λ found. IfSome found (λ r. r.line ≡ line)) }
{
    let Some((name, behind_name)) = split_quoted(tokens) else {
        return Ok(None);
    };
    let Some((centre, behind_centre)) = split_atom(behind_name) else {
        return Ok(None);
    };
    let Some((kind, rest)) = split_arrow(behind_centre) else {
        return Ok(None);
    };
    let Some(pair) = centre_in(alloc, names, centre.as_str())? else {
        return Ok(None);
    };
    if rest.is_empty() {
        return Ok(None);
    }
    let Some(contexts) = contexts_in(alloc, names, rest)? else {
        return Ok(None);
    };
    let name = Text::of(alloc, name.as_str())?;
    Ok(Some(TwoLevelRule {
        name,
        line,
        pair,
        kind,
        contexts,
    }))
}

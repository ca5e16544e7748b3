ghost use Rattle.std.specs.Prelude.{◌≡◌, IfOk, map};
ghost use Rattle.std.specs.Option.{option_map};
ghost use Rattle.regex_ast.specs.Terms.{term};
ghost use Rattle.regex_grammar.specs.Reading.{expression_at};
ghost use Rattle.regex_parser.specs.Levels.{square_within, round_within, primary_within, negated_within, crossed_within, suffixed_within, prefixed_within, ignored_within, concat_within, chain_within, part_within, context_within, contexts_within, sided_within, marks_within, right_within, mapping_within, mappings_within, upper_within, group_tail_within, group_within, replacement_within, directed_within, restriction_within, ruling_within, insertion_within, nine_within, steps_within};
ghost use Rattle.regex_parser.specs.Values.{context_value, sided_value, mapping_value, group_value};

use crate::build;
use crate::front::{
    arrow, backslashes, begins_operand, directed_arrow, prefixes, split_arrow, split_link,
    split_side, split_step, split_way, suffixes,
};
use crate::leaf::leaf;
use crate::parsed::Parsed;
use regex_ast::{Context, Expr, Group, Mapping, Raw, Side, Way};
use regex_tokens::{Operator, Token, after};
use std::alloc::{AllocError, Global};

/// What was read at the front of the tokens, and the tokens behind it; `None` where it isn't there.
pub type Read<'a, T> = Option<(T, &'a [Token])>;

/// Reads an expression at the front of the tokens. Fewer than `depth` brackets may be open round each of its tokens.
#[cycle(parser)]
pub fn expression<'a>(
    alloc: Global,
    tokens: &'a [Token],
    depth: u32,
) -> Result<Read<'a, Parsed>, AllocError>
    ensures { IfOk result (λ read. option_map (λ x. (term x.0.expr, x.1.now)) read ≡ expression_at depth tokens.now) }
{
    if depth == 0 {
        return Ok(None);
    }
    steps(alloc, tokens, depth - 1)
}

/// Reads level 10. At most `depth` brackets may be open round each token, here and at the levels below.
#[cycle(parser)]
fn steps<'a>(alloc: Global, tokens: &'a [Token], depth: u32) -> Result<Read<'a, Parsed>, AllocError>
    ensures { IfOk result (λ read. option_map (λ x. (term x.0.expr, x.1.now)) read ≡ steps_within depth tokens.now) }
{
    let Some((first, mut rest)) = nine(alloc, tokens, depth)? else {
        return Ok(None);
    };
    let mut found = Vec::new(alloc);
    'steps: while let Some((operator, next)) = split_step(rest) {
        let Some((operand, behind)) = nine(alloc, next, depth)? else {
            return Ok(None);
        };
        found.push(build::step(operator, operand))?;
        rest = behind;
    }
    Ok(Some((build::add_steps(alloc, first, found)?, rest)))
}

/// Reads level 9.
#[cycle(parser)]
fn nine<'a>(alloc: Global, tokens: &'a [Token], depth: u32) -> Result<Read<'a, Parsed>, AllocError>
    ensures { IfOk result (λ read. option_map (λ x. (term x.0.expr, x.1.now)) read ≡ nine_within depth tokens.now) }
{
    if let Some(behind) = after(tokens, Operator::Insertion) {
        return insertion(alloc, behind, depth);
    }
    let Some((centre, rest)) = chain(alloc, tokens, depth)? else {
        return Ok(None);
    };
    ruling(alloc, centre, rest, depth)
}

/// Reads what is behind `[..]`.
#[cycle(parser)]
fn insertion<'a>(
    alloc: Global,
    tokens: &'a [Token],
    depth: u32,
) -> Result<Read<'a, Parsed>, AllocError>
    ensures { IfOk result (λ read. option_map (λ x. (term x.0.expr, x.1.now)) read ≡ insertion_within depth tokens.now) }
{
    let Some((optional, rest)) = split_arrow(tokens) else {
        return Ok(None);
    };
    let Some((inserted, rest)) = chain(alloc, rest, depth)? else {
        return Ok(None);
    };
    let Some((side, contexts, rest)) = sided(alloc, rest, depth)? else {
        return Ok(None);
    };
    let rules = build::insertion(alloc, optional, inserted, side, contexts)?;
    Ok(Some((rules, rest)))
}

/// Reads what may stand behind a level 8: `=>` or an arrow, and what follows it.
#[cycle(parser)]
fn ruling<'a>(
    alloc: Global,
    centre: Parsed,
    tokens: &'a [Token],
    depth: u32,
) -> Result<Read<'a, Parsed>, AllocError>
    ensures { IfOk result (λ read. option_map (λ x. (term x.0.expr, x.1.now)) read ≡ ruling_within depth (term centre.expr) tokens.now) }
{
    if let Some(rest) = after(tokens, Operator::Only) {
        return restriction(alloc, centre, rest, depth);
    }
    if let Some((optional, rest)) = split_arrow(tokens) {
        return replacement(alloc, optional, centre, rest, depth);
    }
    if let Some((way, rest)) = split_way(tokens) {
        return directed(alloc, way, centre, rest, depth);
    }
    Ok(Some((centre, tokens)))
}

/// Reads what is behind `=>`.
#[cycle(parser)]
fn restriction<'a>(
    alloc: Global,
    centre: Parsed,
    tokens: &'a [Token],
    depth: u32,
) -> Result<Read<'a, Parsed>, AllocError>
    ensures { IfOk result (λ read. option_map (λ x. (term x.0.expr, x.1.now)) read ≡ restriction_within depth (term centre.expr) tokens.now) }
{
    let Some((allowed, rest)) = contexts(alloc, tokens, depth)? else {
        return Ok(None);
    };
    Ok(Some((build::restriction(alloc, centre, allowed)?, rest)))
}

/// Reads what is behind a first centre and its arrow.
#[cycle(parser)]
fn replacement<'a>(
    alloc: Global,
    optional: bool,
    centre: Parsed,
    tokens: &'a [Token],
    depth: u32,
) -> Result<Read<'a, Parsed>, AllocError>
    ensures { IfOk result (λ read. option_map (λ x. (term x.0.expr, x.1.now)) read ≡ replacement_within depth optional (term centre.expr) tokens.now) }
{
    let Some((first, mut rest)) = group_tail(alloc, optional, centre, tokens, depth)? else {
        return Ok(None);
    };
    let mut groups = Vec::new(alloc);
    groups.push(first)?;
    'groups: while let Some(next) = after(rest, Operator::GroupComma) {
        let Some((group, behind)) = group(alloc, optional, next, depth)? else {
            return Ok(None);
        };
        groups.push(group)?;
        rest = behind;
    }
    Ok(Some((build::rules(optional, groups), rest)))
}

/// Reads what is behind a first centre and its directed arrow.
#[cycle(parser)]
fn directed<'a>(
    alloc: Global,
    way: Way,
    centre: Parsed,
    tokens: &'a [Token],
    depth: u32,
) -> Result<Read<'a, Parsed>, AllocError>
    ensures { IfOk result (λ read. option_map (λ x. (term x.0.expr, x.1.now)) read ≡ directed_within depth way (term centre.expr) tokens.now) }
{
    let Some((maps, rest)) = mappings(alloc, directed_arrow(way), centre, tokens, depth)? else {
        return Ok(None);
    };
    let Some((contexts, rest)) = upper(alloc, rest, depth)? else {
        return Ok(None);
    };
    Ok(Some((build::directed(way, maps, contexts), rest)))
}

/// Reads a group.
#[cycle(parser)]
fn group<'a>(
    alloc: Global,
    optional: bool,
    tokens: &'a [Token],
    depth: u32,
) -> Result<Read<'a, Group<Raw>>, AllocError>
    ensures { IfOk result (λ read. option_map (λ x. (group_value x.0, x.1.now)) read ≡ group_within depth optional tokens.now) }
{
    let Some((centre, rest)) = chain(alloc, tokens, depth)? else {
        return Ok(None);
    };
    let Some(behind) = after(rest, arrow(optional)) else {
        return Ok(None);
    };
    group_tail(alloc, optional, centre, behind, depth)
}

/// Reads what is behind a group's first centre and its arrow.
#[cycle(parser)]
fn group_tail<'a>(
    alloc: Global,
    optional: bool,
    centre: Parsed,
    tokens: &'a [Token],
    depth: u32,
) -> Result<Read<'a, Group<Raw>>, AllocError>
    ensures { IfOk result (λ read. option_map (λ x. (group_value x.0, x.1.now)) read ≡ group_tail_within depth optional (term centre.expr) tokens.now) }
{
    let Some((maps, rest)) = mappings(alloc, arrow(optional), centre, tokens, depth)? else {
        return Ok(None);
    };
    let Some((side, contexts, rest)) = sided(alloc, rest, depth)? else {
        return Ok(None);
    };
    Ok(Some((build::group(maps, side, contexts), rest)))
}

/// Reads what is behind a first centre and this arrow of it: its right side, and further mappings by the same arrow.
#[cycle(parser)]
fn mappings<'a>(
    alloc: Global,
    arrow: Operator,
    centre: Parsed,
    tokens: &'a [Token],
    depth: u32,
) -> Result<Read<'a, Vec<Mapping<Raw>>>, AllocError>
    ensures { IfOk result (λ read. option_map (λ x. (map mapping_value x.0.items, x.1.now)) read ≡ mappings_within depth arrow (term centre.expr) tokens.now) }
{
    let Some((first, mut rest)) = right_side(alloc, centre, tokens, depth)? else {
        return Ok(None);
    };
    let mut maps = Vec::new(alloc);
    maps.push(first)?;
    'mappings: while let Some(next) = after(rest, Operator::Comma) {
        let Some((map, behind)) = mapping(alloc, arrow, next, depth)? else {
            return Ok(None);
        };
        maps.push(map)?;
        rest = behind;
    }
    Ok(Some((maps, rest)))
}

/// Reads a mapping by this arrow.
#[cycle(parser)]
fn mapping<'a>(
    alloc: Global,
    arrow: Operator,
    tokens: &'a [Token],
    depth: u32,
) -> Result<Read<'a, Mapping<Raw>>, AllocError>
    ensures { IfOk result (λ read. option_map (λ x. (mapping_value x.0, x.1.now)) read ≡ mapping_within depth arrow tokens.now) }
{
    let Some((centre, rest)) = chain(alloc, tokens, depth)? else {
        return Ok(None);
    };
    let Some(behind) = after(rest, arrow) else {
        return Ok(None);
    };
    right_side(alloc, centre, behind, depth)
}

/// Reads what is behind a centre and its arrow.
#[cycle(parser)]
fn right_side<'a>(
    alloc: Global,
    centre: Parsed,
    tokens: &'a [Token],
    depth: u32,
) -> Result<Read<'a, Mapping<Raw>>, AllocError>
    ensures { IfOk result (λ read. option_map (λ x. (mapping_value x.0, x.1.now)) read ≡ right_within depth (term centre.expr) tokens.now) }
{
    if let Some(behind) = after(tokens, Operator::Dots) {
        let before = Parsed { expr: Expr::Empty };
        return marks(alloc, centre, before, behind, depth);
    }
    let Some((result, rest)) = chain(alloc, tokens, depth)? else {
        return Ok(None);
    };
    if let Some(behind) = after(rest, Operator::Dots) {
        return marks(alloc, centre, result, behind, depth);
    }
    Ok(Some((build::plain(centre, result), rest)))
}

/// Reads what is behind `...`.
#[cycle(parser)]
fn marks<'a>(
    alloc: Global,
    centre: Parsed,
    before: Parsed,
    tokens: &'a [Token],
    depth: u32,
) -> Result<Read<'a, Mapping<Raw>>, AllocError>
    ensures { IfOk result (λ read. option_map (λ x. (mapping_value x.0, x.1.now)) read ≡ marks_within depth (term centre.expr) (term before.expr) tokens.now) }
{
    let Some((after, rest)) = chain_or_empty(alloc, tokens, depth)? else {
        return Ok(None);
    };
    Ok(Some((build::markup(centre, before, after), rest)))
}

/// Reads contexts with the operator before them; where there is none, no context is asked for.
#[cycle(parser)]
fn sided<'a>(
    alloc: Global,
    tokens: &'a [Token],
    depth: u32,
) -> Result<Option<(Side, Vec<Context<Raw>>, &'a [Token])>, AllocError>
    ensures { IfOk result (λ read. option_map (λ x. (sided_value x.0 x.1.items, x.2.now)) read ≡ sided_within depth tokens.now) }
{
    let Some((side, rest)) = split_side(tokens) else {
        return Ok(Some((Side::UpUp, Vec::new(alloc), tokens)));
    };
    let Some((contexts, rest)) = contexts(alloc, rest, depth)? else {
        return Ok(None);
    };
    Ok(Some((side, contexts, rest)))
}

/// Reads contexts behind `||`; where there is none, no context is asked for.
#[cycle(parser)]
fn upper<'a>(
    alloc: Global,
    tokens: &'a [Token],
    depth: u32,
) -> Result<Read<'a, Vec<Context<Raw>>>, AllocError>
    ensures { IfOk result (λ read. option_map (λ x. (map context_value x.0.items, x.1.now)) read ≡ upper_within depth tokens.now) }
{
    let Some(rest) = after(tokens, Operator::UpUp) else {
        return Ok(Some((Vec::new(alloc), tokens)));
    };
    contexts(alloc, rest, depth)
}

/// Reads contexts, with `,` between them.
#[cycle(parser)]
fn contexts<'a>(
    alloc: Global,
    tokens: &'a [Token],
    depth: u32,
) -> Result<Read<'a, Vec<Context<Raw>>>, AllocError>
    ensures { IfOk result (λ read. option_map (λ x. (map context_value x.0.items, x.1.now)) read ≡ contexts_within depth tokens.now) }
{
    let Some((first, mut rest)) = context(alloc, tokens, depth)? else {
        return Ok(None);
    };
    let mut found = Vec::new(alloc);
    found.push(first)?;
    'contexts: while let Some(next) = after(rest, Operator::Comma) {
        let Some((context, behind)) = context(alloc, next, depth)? else {
            return Ok(None);
        };
        found.push(context)?;
        rest = behind;
    }
    Ok(Some((found, rest)))
}

/// Reads a context.
#[cycle(parser)]
fn context<'a>(
    alloc: Global,
    tokens: &'a [Token],
    depth: u32,
) -> Result<Read<'a, Context<Raw>>, AllocError>
    ensures { IfOk result (λ read. option_map (λ x. (context_value x.0, x.1.now)) read ≡ context_within depth tokens.now) }
{
    let Some((left, rest)) = chain_or_empty(alloc, tokens, depth)? else {
        return Ok(None);
    };
    let Some(behind) = after(rest, Operator::Underscore) else {
        return Ok(None);
    };
    let Some((right, rest)) = chain_or_empty(alloc, behind, depth)? else {
        return Ok(None);
    };
    Ok(Some((build::context_of(left, right), rest)))
}

/// Reads level 8, or nothing where no operand begins.
#[cycle(parser)]
fn chain_or_empty<'a>(
    alloc: Global,
    tokens: &'a [Token],
    depth: u32,
) -> Result<Read<'a, Parsed>, AllocError>
    ensures { IfOk result (λ read. option_map (λ x. (term x.0.expr, x.1.now)) read ≡ part_within depth tokens.now) }
{
    if !begins_operand(tokens) {
        return Ok(Some((Parsed { expr: Expr::Empty }, tokens)));
    }
    chain(alloc, tokens, depth)
}

/// Reads level 8.
#[cycle(parser)]
fn chain<'a>(alloc: Global, tokens: &'a [Token], depth: u32) -> Result<Read<'a, Parsed>, AllocError>
    ensures { IfOk result (λ read. option_map (λ x. (term x.0.expr, x.1.now)) read ≡ chain_within depth tokens.now) }
{
    let Some((first, mut rest)) = concatenation(alloc, tokens, depth)? else {
        return Ok(None);
    };
    let mut links = Vec::new(alloc);
    'links: while let Some((operator, next)) = split_link(rest) {
        let Some((operand, behind)) = concatenation(alloc, next, depth)? else {
            return Ok(None);
        };
        links.push(build::link(operator, operand))?;
        rest = behind;
    }
    Ok(Some((build::add_links(alloc, first, links)?, rest)))
}

/// Reads level 7.
#[cycle(parser)]
fn concatenation<'a>(
    alloc: Global,
    tokens: &'a [Token],
    depth: u32,
) -> Result<Read<'a, Parsed>, AllocError>
    ensures { IfOk result (λ read. option_map (λ x. (term x.0.expr, x.1.now)) read ≡ concat_within depth tokens.now) }
{
    let Some((first, mut rest)) = ignored(alloc, tokens, depth)? else {
        return Ok(None);
    };
    let mut more = Vec::new(alloc);
    'operands: while begins_operand(rest) {
        let Some((operand, behind)) = ignored(alloc, rest, depth)? else {
            return Ok(None);
        };
        more.push(operand.into_expr())?;
        rest = behind;
    }
    Ok(Some((build::concatenate(first, more)?, rest)))
}

/// Reads level 6.
#[cycle(parser)]
fn ignored<'a>(
    alloc: Global,
    tokens: &'a [Token],
    depth: u32,
) -> Result<Read<'a, Parsed>, AllocError>
    ensures { IfOk result (λ read. option_map (λ x. (term x.0.expr, x.1.now)) read ≡ ignored_within depth tokens.now) }
{
    let Some((first, mut rest)) = prefixed(alloc, tokens, depth)? else {
        return Ok(None);
    };
    let mut more = Vec::new(alloc);
    'operands: while let Some(next) = after(rest, Operator::Slash) {
        let Some((operand, behind)) = prefixed(alloc, next, depth)? else {
            return Ok(None);
        };
        more.push(operand.into_expr())?;
        rest = behind;
    }
    Ok(Some((build::ignore(first, more)?, rest)))
}

/// Reads level 5.
#[cycle(parser)]
fn prefixed<'a>(
    alloc: Global,
    tokens: &'a [Token],
    depth: u32,
) -> Result<Read<'a, Parsed>, AllocError>
    ensures { IfOk result (λ read. option_map (λ x. (term x.0.expr, x.1.now)) read ≡ prefixed_within depth tokens.now) }
{
    let (marks, rest) = prefixes(alloc, tokens)?;
    let Some((operand, rest)) = suffixed(alloc, rest, depth)? else {
        return Ok(None);
    };
    Ok(Some((build::add_prefixes(alloc, marks, operand)?, rest)))
}

/// Reads level 4.
#[cycle(parser)]
fn suffixed<'a>(
    alloc: Global,
    tokens: &'a [Token],
    depth: u32,
) -> Result<Read<'a, Parsed>, AllocError>
    ensures { IfOk result (λ read. option_map (λ x. (term x.0.expr, x.1.now)) read ≡ suffixed_within depth tokens.now) }
{
    let Some((operand, rest)) = crossed(alloc, tokens, depth)? else {
        return Ok(None);
    };
    let Some((marks, rest)) = suffixes(alloc, rest)? else {
        return Ok(None);
    };
    Ok(Some((build::add_suffixes(alloc, operand, marks)?, rest)))
}

/// Reads level 3.
#[cycle(parser)]
fn crossed<'a>(
    alloc: Global,
    tokens: &'a [Token],
    depth: u32,
) -> Result<Read<'a, Parsed>, AllocError>
    ensures { IfOk result (λ read. option_map (λ x. (term x.0.expr, x.1.now)) read ≡ crossed_within depth tokens.now) }
{
    let Some((upper, rest)) = negated(alloc, tokens, depth)? else {
        return Ok(None);
    };
    let Some(behind) = after(rest, Operator::Colon) else {
        return Ok(Some((upper, rest)));
    };
    let Some((lower, rest)) = negated(alloc, behind, depth)? else {
        return Ok(None);
    };
    Ok(Some((build::cross(alloc, upper, lower)?, rest)))
}

/// Reads level 2.
#[cycle(parser)]
fn negated<'a>(
    alloc: Global,
    tokens: &'a [Token],
    depth: u32,
) -> Result<Read<'a, Parsed>, AllocError>
    ensures { IfOk result (λ read. option_map (λ x. (term x.0.expr, x.1.now)) read ≡ negated_within depth tokens.now) }
{
    let (marks, rest) = backslashes(tokens);
    let Some((operand, rest)) = primary(alloc, rest, depth)? else {
        return Ok(None);
    };
    Ok(Some((build::add_backslashes(alloc, marks, operand)?, rest)))
}

/// Reads level 1.
#[cycle(parser)]
fn primary<'a>(
    alloc: Global,
    tokens: &'a [Token],
    depth: u32,
) -> Result<Read<'a, Parsed>, AllocError>
    ensures { IfOk result (λ read. option_map (λ x. (term x.0.expr, x.1.now)) read ≡ primary_within depth tokens.now) }
{
    if let Some(rest) = after(tokens, Operator::OpenSquare) {
        return square(alloc, rest, depth);
    }
    if let Some(rest) = after(tokens, Operator::OpenRound) {
        return round(alloc, rest, depth);
    }
    leaf(alloc, tokens)
}

/// Reads what is behind `[`.
#[cycle(parser)]
fn square<'a>(
    alloc: Global,
    tokens: &'a [Token],
    depth: u32,
) -> Result<Read<'a, Parsed>, AllocError>
    ensures { IfOk result (λ read. option_map (λ x. (term x.0.expr, x.1.now)) read ≡ square_within depth tokens.now) }
{
    if let Some(rest) = after(tokens, Operator::CloseSquare) {
        return Ok(Some((Parsed { expr: Expr::Empty }, rest)));
    }
    let Some((inner, rest)) = expression(alloc, tokens, depth)? else {
        return Ok(None);
    };
    let Some(rest) = after(rest, Operator::CloseSquare) else {
        return Ok(None);
    };
    Ok(Some((build::grouped(alloc, inner)?, rest)))
}

/// Reads what is behind `(`.
#[cycle(parser)]
fn round<'a>(alloc: Global, tokens: &'a [Token], depth: u32) -> Result<Read<'a, Parsed>, AllocError>
    ensures { IfOk result (λ read. option_map (λ x. (term x.0.expr, x.1.now)) read ≡ round_within depth tokens.now) }
{
    let Some((inner, rest)) = expression(alloc, tokens, depth)? else {
        return Ok(None);
    };
    let Some(rest) = after(rest, Operator::CloseRound) else {
        return Ok(None);
    };
    Ok(Some((build::maybe(alloc, inner)?, rest)))
}

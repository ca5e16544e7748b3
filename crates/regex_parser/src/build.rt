ghost use Rattle.std.specs.Prelude.{◌≡◌, IfOk, map, [], ◌∷◌};
ghost use Rattle.regex_ast.specs.Terms.{term, group as group_term, maybe, cross, only, rules, directed};
ghost use Rattle.regex_grammar.specs.Grammar.{with_suffixes, with_prefixes, ignoring, side_by_side, with_links, with_steps, contexts_by, plain_mapping, marking, inserting, mappings_by, groups_by};
ghost use Rattle.regex_parser.specs.Values.{not_one_of, linked_by, step_by, link_value, step_value, context_value, sided_value, mapping_value, group_value};

use crate::front::{LinkOperator, StepOperator};
use crate::parsed::Parsed;
use regex_ast::{
    Context, Directed, Expr, Group, Link, Mapping, Prefix, Raw, RuleSet, Side, Step, Suffix, Way,
};
use std::alloc::{AllocError, Global};

/// An operand behind so many backslashes; where there are none, the operand. With 2^32 of them or more there is no
/// memory for it.
pub fn add_backslashes(alloc: Global, marks: usize, operand: Parsed) -> Result<Parsed, AllocError>
    ensures { IfOk result (λ made. term made.expr ≡ not_one_of marks (term operand.expr)) }
{
    if marks == 0 {
        return Ok(operand);
    }
    let Ok(marks) = u32::try_from(marks) else {
        return Err(AllocError);
    };
    Ok(Parsed {
        expr: Expr::NotOne(marks, Box::new(alloc, operand.into_expr())?),
    })
}

/// An expression in square brackets.
pub fn grouped(alloc: Global, inner: Parsed) -> Result<Parsed, AllocError>
    ensures { IfOk result (λ made. term made.expr ≡ group_term (term inner.expr)) }
{
    Ok(Parsed {
        expr: Expr::Group(Box::new(alloc, inner.into_expr())?),
    })
}

/// An expression in round brackets.
pub fn maybe(alloc: Global, inner: Parsed) -> Result<Parsed, AllocError>
    ensures { IfOk result (λ made. term made.expr ≡ maybe (term inner.expr)) }
{
    Ok(Parsed {
        expr: Expr::Maybe(Box::new(alloc, inner.into_expr())?),
    })
}

/// An upper and a lower side.
pub fn cross(alloc: Global, upper: Parsed, lower: Parsed) -> Result<Parsed, AllocError>
    ensures { IfOk result (λ made. term made.expr ≡ cross (term upper.expr) (term lower.expr)) }
{
    let upper = Box::new(alloc, upper.into_expr())?;
    Ok(Parsed {
        expr: Expr::Cross(upper, Box::new(alloc, lower.into_expr())?),
    })
}

/// An operand with its suffixes; where there are none, the operand.
pub fn add_suffixes(
    alloc: Global,
    operand: Parsed,
    suffixes: Vec<Suffix>,
) -> Result<Parsed, AllocError>
    ensures { IfOk result (λ made. term made.expr ≡ with_suffixes (term operand.expr) suffixes.items) }
{
    if suffixes.is_empty() {
        return Ok(operand);
    }
    Ok(Parsed {
        expr: Expr::Suffixed(Box::new(alloc, operand.into_expr())?, suffixes),
    })
}

/// Prefixes and their operand; where there are none, the operand.
pub fn add_prefixes(
    alloc: Global,
    prefixes: Vec<Prefix>,
    operand: Parsed,
) -> Result<Parsed, AllocError>
    ensures { IfOk result (λ made. term made.expr ≡ with_prefixes prefixes.items (term operand.expr)) }
{
    if prefixes.is_empty() {
        return Ok(operand);
    }
    Ok(Parsed {
        expr: Expr::Prefixed(prefixes, Box::new(alloc, operand.into_expr())?),
    })
}

/// Operands with `/` between them; one alone stands for itself.
pub fn ignore(first: Parsed, mut more: Vec<Expr<Raw>>) -> Result<Parsed, AllocError>
    ensures { IfOk result (λ made. term made.expr ≡ ignoring (term first.expr) (map term more.items)) }
{
    if more.is_empty() {
        return Ok(first);
    }
    more.insert(0, first.into_expr())?;
    Ok(Parsed {
        expr: Expr::Ignore(more),
    })
}

/// Operands side by side; one alone stands for itself.
pub fn concatenate(first: Parsed, mut more: Vec<Expr<Raw>>) -> Result<Parsed, AllocError>
    ensures { IfOk result (λ made. term made.expr ≡ side_by_side (term first.expr) (map term more.items)) }
{
    if more.is_empty() {
        return Ok(first);
    }
    more.insert(0, first.into_expr())?;
    Ok(Parsed {
        expr: Expr::Concat(more),
    })
}

/// An operand of a row of `|`, `&` and `-`, with the operator before it.
pub fn link(operator: LinkOperator, operand: Parsed) -> Link<Raw>
    ensures { link_value result ≡ linked_by operator (term operand.expr) }
{
    match operator {
        LinkOperator::Or => Link::Or(operand.into_expr()),
        LinkOperator::And => Link::And(operand.into_expr()),
        LinkOperator::Less => Link::Less(operand.into_expr()),
    }
}

/// A row of `|`, `&` and `-`; an operand alone stands for itself.
pub fn add_links(alloc: Global, first: Parsed, links: Vec<Link<Raw>>) -> Result<Parsed, AllocError>
    ensures { IfOk result (λ made. term made.expr ≡ with_links (term first.expr) (map link_value links.items)) }
{
    if links.is_empty() {
        return Ok(first);
    }
    Ok(Parsed {
        expr: Expr::Chain(Box::new(alloc, first.into_expr())?, links),
    })
}

/// An operand of a row of `.x.` and `.o.`, with the operator before it.
pub fn step(operator: StepOperator, operand: Parsed) -> Step<Raw>
    ensures { step_value result ≡ step_by operator (term operand.expr) }
{
    match operator {
        StepOperator::CrossWith => Step::CrossWith(operand.into_expr()),
        StepOperator::Then => Step::Then(operand.into_expr()),
    }
}

/// A row of `.x.` and `.o.`; an operand alone stands for itself.
pub fn add_steps(alloc: Global, first: Parsed, steps: Vec<Step<Raw>>) -> Result<Parsed, AllocError>
    ensures { IfOk result (λ made. term made.expr ≡ with_steps (term first.expr) (map step_value steps.items)) }
{
    if steps.is_empty() {
        return Ok(first);
    }
    Ok(Parsed {
        expr: Expr::Steps(Box::new(alloc, first.into_expr())?, steps),
    })
}

/// An expression that stands in one of the contexts only.
pub fn restriction(
    alloc: Global,
    centre: Parsed,
    contexts: Vec<Context<Raw>>,
) -> Result<Parsed, AllocError>
    ensures { IfOk result (λ made. term made.expr ≡ only (term centre.expr) (contexts_by (map context_value contexts.items))) }
{
    Ok(Parsed {
        expr: Expr::Only(Box::new(alloc, centre.into_expr())?, contexts),
    })
}

/// A context of two parts.
pub fn context_of(left: Parsed, right: Parsed) -> Context<Raw>
    ensures { context_value result ≡ record { left = term left.expr; right = term right.expr } }
{
    Context {
        left: left.into_expr(),
        right: right.into_expr(),
    }
}

/// A mapping of a centre to a result.
pub fn plain(centre: Parsed, by: Parsed) -> Mapping<Raw>
    ensures { mapping_value result ≡ plain_mapping (term centre.expr) (term by.expr) }
{
    Mapping::Plain {
        centre: centre.into_expr(),
        result: by.into_expr(),
    }
}

/// A mapping that puts something before and after a centre.
pub fn markup(centre: Parsed, before: Parsed, after: Parsed) -> Mapping<Raw>
    ensures { mapping_value result ≡ marking (term centre.expr) (term before.expr) (term after.expr) }
{
    Mapping::Markup {
        centre: centre.into_expr(),
        before: before.into_expr(),
        after: after.into_expr(),
    }
}

/// Mappings and their contexts.
pub fn group(maps: Vec<Mapping<Raw>>, side: Side, contexts: Vec<Context<Raw>>) -> Group<Raw>
    ensures { group_value result ≡ record { maps = map mapping_value maps.items; sided = sided_value side contexts.items } }
{
    Group {
        maps,
        side,
        contexts,
    }
}

/// Groups that replace side by side.
pub fn rules(optional: bool, groups: Vec<Group<Raw>>) -> Parsed
    ensures { term result.expr ≡ rules optional (groups_by (map group_value groups.items)) }
{
    Parsed {
        expr: Expr::Rules(RuleSet { optional, groups }),
    }
}

/// Mappings that are taken in a way.
pub fn directed(way: Way, maps: Vec<Mapping<Raw>>, contexts: Vec<Context<Raw>>) -> Parsed
    ensures { term result.expr ≡ directed way (mappings_by (map mapping_value maps.items)) (contexts_by (map context_value contexts.items)) }
{
    Parsed {
        expr: Expr::Directed(Directed {
            way,
            maps,
            contexts,
        }),
    }
}

/// The rules that insert an expression in contexts.
pub fn insertion(
    alloc: Global,
    optional: bool,
    inserted: Parsed,
    side: Side,
    contexts: Vec<Context<Raw>>,
) -> Result<Parsed, AllocError>
    ensures { IfOk result (λ made. term made.expr ≡ rules optional (groups_by (record { maps = inserting (term inserted.expr) ∷ []; sided = sided_value side contexts.items } ∷ []))) }
{
    let mut maps = Vec::new(alloc);
    maps.push(Mapping::Insert {
        result: inserted.into_expr(),
    })?;
    let mut groups = Vec::new(alloc);
    groups.push(group(maps, side, contexts))?;
    Ok(rules(optional, groups))
}

ghost use Rattle.std.specs.Prelude.{◌≡◌, IfOk, map};
ghost use Rattle.std.specs.Option.{option_map};
ghost use Rattle.regex_ast.specs.Terms.{links_of, term, terms_of};
ghost use Rattle.project_meaning.specs.Leaves.{written};
ghost use Rattle.twolc_expressions.specs.Reading.{IsLink, pair_links, pair_term, pair_terms};
ghost use Rattle.twolc_grammar.specs.Expressions.{each_over_pairs, links_over_pairs, over_pairs};

use crate::atom::part_in;
use crate::names::KnownNames;
use regex_ast::{Expr, Link, PairPart, Raw};
use std::alloc::{AllocError, Global};

/// The text of a leaf.
fn written(leaf: &Raw) -> &str
    ensures { result.now ≡ written leaf.now }
{
    match leaf {
        Raw::Run(text) => text.as_str(),
        Raw::Quoted(text) => text.as_str(),
    }
}

/// What an xfst expression says over pairs, each of its leaves an atom; `None` where one is none, or where it has a form that
/// doesn't stand in a twolc text.
#[cycle(over_pairs)]
pub fn over_pairs(
    alloc: Global,
    names: &KnownNames,
    expr: &Expr<Raw>,
) -> Result<Option<Expr<PairPart<Raw>>>, AllocError>
    ensures { IfOk result (λ found. option_map pair_term found ≡ over_pairs names.now (term expr.now)) }
{
    match expr {
        Expr::Empty => Ok(Some(Expr::Empty)),
        Expr::Any => Ok(Some(Expr::Any)),
        Expr::Edge => Ok(Some(Expr::Edge)),
        Expr::Atom(leaf) => match part_in(alloc, names, written(leaf))? {
            Some(part) => Ok(Some(Expr::Atom(part))),
            None => Ok(None),
        },
        Expr::Group(inner) => match over_pairs(alloc, names, inner)? {
            Some(inner) => Ok(Some(Expr::Group(Box::new(alloc, inner)?))),
            None => Ok(None),
        },
        Expr::Maybe(inner) => match over_pairs(alloc, names, inner)? {
            Some(inner) => Ok(Some(Expr::Maybe(Box::new(alloc, inner)?))),
            None => Ok(None),
        },
        Expr::NotOne(marks, inner) => match over_pairs(alloc, names, inner)? {
            Some(inner) => Ok(Some(Expr::NotOne(*marks, Box::new(alloc, inner)?))),
            None => Ok(None),
        },
        Expr::Suffixed(inner, suffixes) => match over_pairs(alloc, names, inner)? {
            Some(inner) => {
                let suffixes = Vec::from_slice(alloc, suffixes)?;
                Ok(Some(Expr::Suffixed(Box::new(alloc, inner)?, suffixes)))
            }
            None => Ok(None),
        },
        Expr::Prefixed(prefixes, inner) => match over_pairs(alloc, names, inner)? {
            Some(inner) => {
                let prefixes = Vec::from_slice(alloc, prefixes)?;
                Ok(Some(Expr::Prefixed(prefixes, Box::new(alloc, inner)?)))
            }
            None => Ok(None),
        },
        Expr::Ignore(operands) => match each_over_pairs(alloc, names, operands)? {
            Some(operands) => Ok(Some(Expr::Ignore(operands))),
            None => Ok(None),
        },
        Expr::Concat(operands) => match each_over_pairs(alloc, names, operands)? {
            Some(operands) => Ok(Some(Expr::Concat(operands))),
            None => Ok(None),
        },
        Expr::Chain(first, links) => {
            let Some(first) = over_pairs(alloc, names, first)? else {
                return Ok(None);
            };
            let Some(links) = links_over_pairs(alloc, names, links)? else {
                return Ok(None);
            };
            Ok(Some(Expr::Chain(Box::new(alloc, first)?, links)))
        }
        Expr::Letters(_)
        | Expr::Cross(_, _)
        | Expr::Only(_, _)
        | Expr::Rules(_)
        | Expr::Directed(_)
        | Expr::Steps(_, _) => Ok(None),
    }
}

/// What expressions say over pairs.
#[cycle(over_pairs)]
fn each_over_pairs(
    alloc: Global,
    names: &KnownNames,
    operands: &[Expr<Raw>],
) -> Result<Option<Vec<Expr<PairPart<Raw>>>>, AllocError>
    ensures { IfOk result (λ found. option_map (λ es. pair_terms es.items) found ≡ each_over_pairs names.now (terms_of (map term operands.now))) }
{
    let mut found = Vec::new(alloc);
    'operands: for operand in operands {
        let Some(operand) = over_pairs(alloc, names, operand)? else {
            return Ok(None);
        };
        found.push(operand)?;
    }
    Ok(Some(found))
}

/// The operands of a row of `|`, `&` and `-`.
#[cycle(over_pairs)]
fn links_over_pairs(
    alloc: Global,
    names: &KnownNames,
    links: &[Link<Raw>],
) -> Result<Option<Vec<Link<PairPart<Raw>>>>, AllocError>
    ensures { IfOk result (λ found. option_map (λ ls. pair_links ls.items) found ≡ links_over_pairs names.now (links_of links.now)) }
{
    let mut found = Vec::new(alloc);
    'links: for link in links {
        let Some(link) = link_over_pairs(alloc, names, link)? else {
            return Ok(None);
        };
        found.push(link)?;
    }
    Ok(Some(found))
}

/// One of them.
#[cycle(over_pairs)]
fn link_over_pairs(
    alloc: Global,
    names: &KnownNames,
    link: &Link<Raw>,
) -> Result<Option<Link<PairPart<Raw>>>, AllocError>
    ensures { IfOk result (IsLink names.now link.now) }
{
    match link {
        Link::Or(operand) => match over_pairs(alloc, names, operand)? {
            Some(operand) => Ok(Some(Link::Or(operand))),
            None => Ok(None),
        },
        Link::And(operand) => match over_pairs(alloc, names, operand)? {
            Some(operand) => Ok(Some(Link::And(operand))),
            None => Ok(None),
        },
        Link::Less(operand) => match over_pairs(alloc, names, operand)? {
            Some(operand) => Ok(Some(Link::Less(operand))),
            None => Ok(None),
        },
    }
}

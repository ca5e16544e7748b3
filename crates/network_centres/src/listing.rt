ghost use Rattle.std.specs.Prelude.{◌≡◌, ◌++◌, ◌∷◌, [], map, IfOk, OnOk};
ghost use Rattle.regex_ast.specs.Terms.{term, terms_of, links_of, contexts_of, steps_by, mappings_of, groups_of};
ghost use Rattle.project_meaning.specs.Centres.{centres_in, centres_in_contexts, centres_in_each, centres_in_groups, centres_in_links, centres_in_mappings, centres_in_steps};
ghost use Rattle.network_centres.specs.Centres.{terms_seen};

use regex_ast::{Atom, Context, Expr, Group, Link, Mapping, Step};
use std::alloc::{AllocError, Global};

/// The centres of the rules of replacement in an expression, each before those that are inside it.
pub fn centres(alloc: Global, expr: &Expr<Atom>) -> Result<Vec<&Expr<Atom>>, AllocError>
    ensures { IfOk result (λ found. terms_seen found.items ≡ centres_in (term expr.now)) }
{
    let mut found = Vec::new(alloc);
    add_centres(expr, &mut found)?;
    Ok(found)
}

/// Adds the centres in an expression.
#[cycle(walk)]
fn add_centres<'a>(expr: &'a Expr<Atom>, found: &mut Vec<&'a Expr<Atom>>) -> Result<(), AllocError>
    ensures { OnOk result (terms_seen found.new.items ≡ terms_seen found.old.items ++ centres_in (term expr.now)) }
{
    match expr {
        Expr::Rules(rules) => add_groups(&rules.groups, found),
        Expr::Directed(rule) => {
            add_mappings(&rule.maps, found)?;
            add_contexts(&rule.contexts, found)
        }
        Expr::Empty | Expr::Any | Expr::Edge | Expr::Atom(_) | Expr::Letters(_) => Ok(()),
        Expr::Group(inner)
        | Expr::Maybe(inner)
        | Expr::NotOne(_, inner)
        | Expr::Suffixed(inner, _)
        | Expr::Prefixed(_, inner) => add_centres(inner, found),
        Expr::Cross(upper, lower) => {
            add_centres(upper, found)?;
            add_centres(lower, found)
        }
        Expr::Ignore(operands) => add_each(operands, found),
        Expr::Concat(operands) => add_each(operands, found),
        Expr::Chain(first, links) => {
            add_centres(first, found)?;
            add_links(links, found)
        }
        Expr::Only(centre, contexts) => {
            add_centres(centre, found)?;
            add_contexts(contexts, found)
        }
        Expr::Steps(first, steps) => {
            add_centres(first, found)?;
            add_steps(steps, found)
        }
    }
}

/// Adds the centres in expressions.
#[cycle(walk)]
fn add_each<'a>(
    operands: &'a [Expr<Atom>],
    found: &mut Vec<&'a Expr<Atom>>,
) -> Result<(), AllocError>
    ensures { OnOk result (terms_seen found.new.items ≡ terms_seen found.old.items ++ centres_in_each (terms_of (map term operands.now))) }
{
    'operands: for operand in operands {
        add_centres(operand, found)?;
    }
    Ok(())
}

/// Adds the centres in the operands of a row.
#[cycle(walk)]
fn add_links<'a>(links: &'a [Link<Atom>], found: &mut Vec<&'a Expr<Atom>>) -> Result<(), AllocError>
    ensures { OnOk result (terms_seen found.new.items ≡ terms_seen found.old.items ++ centres_in_links (links_of links.now)) }
{
    'links: for link in links {
        match link {
            Link::Or(operand) | Link::And(operand) | Link::Less(operand) => {
                add_centres(operand, found)?;
            }
        }
    }
    Ok(())
}

/// Adds the centres in contexts.
#[cycle(walk)]
fn add_contexts<'a>(
    contexts: &'a [Context<Atom>],
    found: &mut Vec<&'a Expr<Atom>>,
) -> Result<(), AllocError>
    ensures { OnOk result (terms_seen found.new.items ≡ terms_seen found.old.items ++ centres_in_contexts (contexts_of contexts.now)) }
{
    'contexts: for context in contexts {
        add_centres(&context.left, found)?;
        add_centres(&context.right, found)?;
    }
    Ok(())
}

/// Adds the centres in the operands of a row of `.x.` and `.o.`.
#[cycle(walk)]
fn add_steps<'a>(steps: &'a [Step<Atom>], found: &mut Vec<&'a Expr<Atom>>) -> Result<(), AllocError>
    ensures { OnOk result (terms_seen found.new.items ≡ terms_seen found.old.items ++ centres_in_steps (steps_by steps.now)) }
{
    'steps: for step in steps {
        match step {
            Step::CrossWith(operand) | Step::Then(operand) => add_centres(operand, found)?,
        }
    }
    Ok(())
}

/// Adds the centres of groups of mappings.
#[cycle(walk)]
fn add_groups<'a>(
    groups: &'a [Group<Atom>],
    found: &mut Vec<&'a Expr<Atom>>,
) -> Result<(), AllocError>
    ensures { OnOk result (terms_seen found.new.items ≡ terms_seen found.old.items ++ centres_in_groups (groups_of groups.now)) }
{
    'groups: for group in groups {
        add_group(group, found)?;
    }
    Ok(())
}

/// Adds the centres of a group of mappings.
#[cycle(walk)]
fn add_group<'a>(group: &'a Group<Atom>, found: &mut Vec<&'a Expr<Atom>>) -> Result<(), AllocError>
    ensures { OnOk result (terms_seen found.new.items ≡ terms_seen found.old.items ++ centres_in_groups (groups_of (group.now ∷ []))) }
{
    add_mappings(&group.maps, found)?;
    add_contexts(&group.contexts, found)
}

/// Adds the centres of mappings.
#[cycle(walk)]
fn add_mappings<'a>(
    maps: &'a [Mapping<Atom>],
    found: &mut Vec<&'a Expr<Atom>>,
) -> Result<(), AllocError>
    ensures { OnOk result (terms_seen found.new.items ≡ terms_seen found.old.items ++ centres_in_mappings (mappings_of maps.now)) }
{
    'maps: for map in maps {
        add_mapping(map, found)?;
    }
    Ok(())
}

/// Adds the centre of a mapping, and the centres in its parts.
#[cycle(walk)]
fn add_mapping<'a>(
    map: &'a Mapping<Atom>,
    found: &mut Vec<&'a Expr<Atom>>,
) -> Result<(), AllocError>
    ensures { OnOk result (terms_seen found.new.items ≡ terms_seen found.old.items ++ centres_in_mappings (mappings_of (map.now ∷ []))) }
{
    match map {
        Mapping::Plain { centre, result } => {
            found.push(centre)?;
            add_centres(centre, found)?;
            add_centres(result, found)
        }
        Mapping::Markup {
            centre,
            before,
            after,
        } => {
            found.push(centre)?;
            add_centres(centre, found)?;
            add_centres(before, found)?;
            add_centres(after, found)
        }
        Mapping::Insert { result } => add_centres(result, found),
    }
}

ghost use Rattle.std.specs.Prelude.{◌≡◌, ◌++◌, ◌∷◌, [], map, IfOk, OnOk};
ghost use Rattle.regex_ast.specs.Terms.{term, terms_of, links_of, contexts_of, steps_by, mappings_of, groups_of};
ghost use Rattle.expr_leaves.specs.Leaves.{leaves_in};
ghost use Rattle.expr_leaves.specs.Leaves.{seen, leaves_in_each, leaves_in_links, leaves_in_contexts, leaves_in_steps, leaves_in_mappings, leaves_in_groups};

use regex_ast::{Context, Expr, Group, Link, Mapping, Step};
use std::alloc::{AllocError, Global};

/// The leaves that stand in an expression, in the order of their places.
pub fn leaves<A>(alloc: Global, expr: &Expr<A>) -> Result<Vec<&A>, AllocError>
    ensures { IfOk result (λ found. seen found.items ≡ leaves_in (term expr.now)) }
{
    let mut found = Vec::new(alloc);
    add_leaves(expr, &mut found)?;
    Ok(found)
}

/// Adds leaves.
fn add_all<'a, A>(leaves: &'a [A], found: &mut Vec<&'a A>) -> Result<(), AllocError>
    ensures { OnOk result (seen found.new.items ≡ seen found.old.items ++ leaves.now) }
{
    'leaves: for leaf in leaves {
        found.push(leaf)?;
    }
    Ok(())
}

/// Adds the leaves of an expression.
#[cycle(walk)]
fn add_leaves<'a, A>(expr: &'a Expr<A>, found: &mut Vec<&'a A>) -> Result<(), AllocError>
    ensures { OnOk result (seen found.new.items ≡ seen found.old.items ++ leaves_in (term expr.now)) }
{
    match expr {
        Expr::Empty => Ok(()),
        Expr::Any => Ok(()),
        Expr::Edge => Ok(()),
        Expr::Atom(leaf) => {
            found.push(leaf)?;
            Ok(())
        }
        Expr::Letters(leaves) => add_all(leaves, found),
        Expr::Group(inner) => add_leaves(inner, found),
        Expr::Maybe(inner) => add_leaves(inner, found),
        Expr::NotOne(_, inner) => add_leaves(inner, found),
        Expr::Cross(upper, lower) => {
            add_leaves(upper, found)?;
            add_leaves(lower, found)
        }
        Expr::Suffixed(inner, _) => add_leaves(inner, found),
        Expr::Prefixed(_, inner) => add_leaves(inner, found),
        Expr::Ignore(operands) => add_each(operands, found),
        Expr::Concat(operands) => add_each(operands, found),
        Expr::Chain(first, links) => {
            add_leaves(first, found)?;
            add_links(links, found)
        }
        Expr::Only(centre, contexts) => {
            add_leaves(centre, found)?;
            add_contexts(contexts, found)
        }
        Expr::Rules(rules) => add_groups(&rules.groups, found),
        Expr::Directed(rule) => {
            add_mappings(&rule.maps, found)?;
            add_contexts(&rule.contexts, found)
        }
        Expr::Steps(first, steps) => {
            add_leaves(first, found)?;
            add_steps(steps, found)
        }
    }
}

/// Adds the leaves of expressions.
#[cycle(walk)]
fn add_each<'a, A>(operands: &'a [Expr<A>], found: &mut Vec<&'a A>) -> Result<(), AllocError>
    ensures { OnOk result (seen found.new.items ≡ seen found.old.items ++ leaves_in_each (terms_of (map term operands.now))) }
{
    'operands: for operand in operands {
        add_leaves(operand, found)?;
    }
    Ok(())
}

/// Adds the leaves of the operands of a row.
#[cycle(walk)]
fn add_links<'a, A>(links: &'a [Link<A>], found: &mut Vec<&'a A>) -> Result<(), AllocError>
    ensures { OnOk result (seen found.new.items ≡ seen found.old.items ++ leaves_in_links (links_of links.now)) }
{
    'links: for link in links {
        match link {
            Link::Or(operand) | Link::And(operand) | Link::Less(operand) => {
                add_leaves(operand, found)?;
            }
        }
    }
    Ok(())
}

/// Adds the leaves of contexts.
#[cycle(walk)]
fn add_contexts<'a, A>(contexts: &'a [Context<A>], found: &mut Vec<&'a A>) -> Result<(), AllocError>
    ensures { OnOk result (seen found.new.items ≡ seen found.old.items ++ leaves_in_contexts (contexts_of contexts.now)) }
{
    'contexts: for context in contexts {
        add_leaves(&context.left, found)?;
        add_leaves(&context.right, found)?;
    }
    Ok(())
}

/// Adds the leaves of the operands of a row of `.x.` and `.o.`.
#[cycle(walk)]
fn add_steps<'a, A>(steps: &'a [Step<A>], found: &mut Vec<&'a A>) -> Result<(), AllocError>
    ensures { OnOk result (seen found.new.items ≡ seen found.old.items ++ leaves_in_steps (steps_by steps.now)) }
{
    'steps: for step in steps {
        match step {
            Step::CrossWith(operand) | Step::Then(operand) => add_leaves(operand, found)?,
        }
    }
    Ok(())
}

/// Adds the leaves of groups of mappings.
#[cycle(walk)]
fn add_groups<'a, A>(groups: &'a [Group<A>], found: &mut Vec<&'a A>) -> Result<(), AllocError>
    ensures { OnOk result (seen found.new.items ≡ seen found.old.items ++ leaves_in_groups (groups_of groups.now)) }
{
    'groups: for group in groups {
        add_group(group, found)?;
    }
    Ok(())
}

/// Adds the leaves of a group of mappings.
#[cycle(walk)]
fn add_group<'a, A>(group: &'a Group<A>, found: &mut Vec<&'a A>) -> Result<(), AllocError>
    ensures { OnOk result (seen found.new.items ≡ seen found.old.items ++ leaves_in_groups (groups_of (group.now ∷ []))) }
{
    add_mappings(&group.maps, found)?;
    add_contexts(&group.contexts, found)
}

/// Adds the leaves of mappings.
#[cycle(walk)]
fn add_mappings<'a, A>(maps: &'a [Mapping<A>], found: &mut Vec<&'a A>) -> Result<(), AllocError>
    ensures { OnOk result (seen found.new.items ≡ seen found.old.items ++ leaves_in_mappings (mappings_of maps.now)) }
{
    'maps: for map in maps {
        add_mapping(map, found)?;
    }
    Ok(())
}

/// Adds the leaves of a mapping.
#[cycle(walk)]
fn add_mapping<'a, A>(map: &'a Mapping<A>, found: &mut Vec<&'a A>) -> Result<(), AllocError>
    ensures { OnOk result (seen found.new.items ≡ seen found.old.items ++ leaves_in_mappings (mappings_of (map.now ∷ []))) }
{
    match map {
        Mapping::Plain { centre, result } => {
            add_leaves(centre, found)?;
            add_leaves(result, found)
        }
        Mapping::Markup {
            centre,
            before,
            after,
        } => {
            add_leaves(centre, found)?;
            add_leaves(before, found)?;
            add_leaves(after, found)
        }
        Mapping::Insert { result } => add_leaves(result, found),
    }
}

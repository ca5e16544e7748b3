ghost use Rattle.std.specs.Prelude.{◌≡◌, ◌++◌, ◌∷◌, [], map, IfOk, OnOk};
ghost use Rattle.regex_ast.specs.Terms.{term, terms_of, links_of, contexts_of, steps_by, mappings_of, groups_of};
ghost use Rattle.body_equality.specs.Items.{context_item, group_item, link_item, mapping_item, step_item};
ghost use Rattle.body_equality.specs.Rows.{context_row, group_row, node_of, letter_row, link_row, mapping_row, operand_row, parts, prefix_row, row_of, step_row, suffix_row};
ghost use Rattle.body_equality.specs.declared.token.Token.TheVariants as token;

use crate::token::{Item, Node, Row, Token};
use regex_ast::{Atom, Context, Expr, Group, Link, Mapping, Prefix, Step, Suffix};
use std::alloc::{AllocError, Global};

/// An expression as a row of tokens: the head of each node before its parts.
pub(crate) fn row_of(alloc: Global, expr: &Expr<Atom>) -> Result<Vec<Token>, AllocError>
    ensures { IfOk result (λ row. row.items ≡ row_of (term expr.now)) }
{
    let mut row = Vec::new(alloc);
    add_expr(expr, &mut row)?;
    Ok(row)
}

/// Adds what a node is.
fn add_node(node: Node, row: &mut Vec<Token>) -> Result<(), AllocError>
    ensures { OnOk result (row.new.items ≡ row.old.items ++ token.Node node ∷ []) }
{
    row.push(Token::Node(node))?;
    Ok(())
}

/// Adds what an item of a list is.
fn add_item(item: Item, row: &mut Vec<Token>) -> Result<(), AllocError>
    ensures { OnOk result (row.new.items ≡ row.old.items ++ token.Item item ∷ []) }
{
    row.push(Token::Item(item))?;
    Ok(())
}

/// Adds the end of a list.
fn add_end(list: Row, row: &mut Vec<Token>) -> Result<(), AllocError>
    ensures { OnOk result (row.new.items ≡ row.old.items ++ token.End list ∷ []) }
{
    row.push(Token::End(list))?;
    Ok(())
}

/// Adds a leaf.
fn add_leaf(leaf: Atom, row: &mut Vec<Token>) -> Result<(), AllocError>
    ensures { OnOk result (row.new.items ≡ row.old.items ++ token.Leaf leaf ∷ []) }
{
    row.push(Token::Leaf(leaf))?;
    Ok(())
}

/// Adds letters.
fn add_letters(letters: &[Atom], row: &mut Vec<Token>) -> Result<(), AllocError>
    ensures { OnOk result (row.new.items ≡ row.old.items ++ letter_row letters.now) }
{
    'letters: for letter in letters {
        add_item(Item::Letter, row)?;
        add_leaf(*letter, row)?;
    }
    add_end(Row::Letters, row)
}

/// Adds suffixes.
fn add_suffixes(suffixes: &[Suffix], row: &mut Vec<Token>) -> Result<(), AllocError>
    ensures { OnOk result (row.new.items ≡ row.old.items ++ suffix_row suffixes.now) }
{
    'suffixes: for suffix in suffixes {
        add_item(Item::OneSuffix(*suffix), row)?;
    }
    add_end(Row::Suffixes, row)
}

/// Adds prefixes.
fn add_prefixes(prefixes: &[Prefix], row: &mut Vec<Token>) -> Result<(), AllocError>
    ensures { OnOk result (row.new.items ≡ row.old.items ++ prefix_row prefixes.now) }
{
    'prefixes: for prefix in prefixes {
        add_item(Item::OnePrefix(*prefix), row)?;
    }
    add_end(Row::Prefixes, row)
}

/// What an expression is, without its parts.
fn node_of(expr: &Expr<Atom>) -> Node
    ensures { result ≡ node_of (term expr.now) }
{
    match expr {
        Expr::Empty => Node::Empty,
        Expr::Any => Node::Any,
        Expr::Edge => Node::Edge,
        Expr::Atom(_) => Node::Atom,
        Expr::Letters(_) => Node::Letters,
        Expr::Group(_) => Node::Group,
        Expr::Maybe(_) => Node::Maybe,
        Expr::NotOne(marks, _) => Node::NotOne(*marks),
        Expr::Cross(_, _) => Node::Cross,
        Expr::Suffixed(_, _) => Node::Suffixed,
        Expr::Prefixed(_, _) => Node::Prefixed,
        Expr::Ignore(_) => Node::Ignore,
        Expr::Concat(_) => Node::Concat,
        Expr::Chain(_, _) => Node::Chain,
        Expr::Only(_, _) => Node::Only,
        Expr::Rules(rules) => Node::Rules(rules.optional),
        Expr::Directed(directed) => Node::Directed(directed.way),
        Expr::Steps(_, _) => Node::Steps,
    }
}

/// Adds an expression.
#[cycle(walk)]
fn add_expr(expr: &Expr<Atom>, row: &mut Vec<Token>) -> Result<(), AllocError>
    ensures { OnOk result (row.new.items ≡ row.old.items ++ row_of (term expr.now)) }
{
    add_node(node_of(expr), row)?;
    match expr {
        Expr::Empty => Ok(()),
        Expr::Any => Ok(()),
        Expr::Edge => Ok(()),
        Expr::Atom(leaf) => add_leaf(*leaf, row),
        Expr::Letters(letters) => add_letters(letters, row),
        Expr::Group(inner) => add_expr(inner, row),
        Expr::Maybe(inner) => add_expr(inner, row),
        Expr::NotOne(_, inner) => add_expr(inner, row),
        Expr::Cross(upper, lower) => {
            add_expr(upper, row)?;
            add_expr(lower, row)
        }
        Expr::Suffixed(inner, suffixes) => {
            add_expr(inner, row)?;
            add_suffixes(suffixes, row)
        }
        Expr::Prefixed(prefixes, inner) => {
            add_prefixes(prefixes, row)?;
            add_expr(inner, row)
        }
        Expr::Ignore(operands) => add_operands(operands, row),
        Expr::Concat(operands) => add_operands(operands, row),
        Expr::Chain(first, links) => {
            add_expr(first, row)?;
            add_links(links, row)
        }
        Expr::Only(centre, contexts) => {
            add_expr(centre, row)?;
            add_contexts(contexts, row)
        }
        Expr::Rules(rules) => add_groups(&rules.groups, row),
        Expr::Directed(directed) => {
            add_mappings(&directed.maps, row)?;
            add_contexts(&directed.contexts, row)
        }
        Expr::Steps(first, steps) => {
            add_expr(first, row)?;
            add_steps(steps, row)
        }
    }
}

/// Adds the operands of a row.
#[cycle(walk)]
fn add_operands(operands: &[Expr<Atom>], row: &mut Vec<Token>) -> Result<(), AllocError>
    ensures { OnOk result (row.new.items ≡ row.old.items ++ operand_row (terms_of (map term operands.now))) }
{
    'operands: for operand in operands {
        add_item(Item::Operand, row)?;
        add_expr(operand, row)?;
    }
    add_end(Row::Operands, row)
}

/// Adds an operand of a row of `|`, `&` and `-`.
#[cycle(walk)]
fn add_link(link: &Link<Atom>, row: &mut Vec<Token>) -> Result<(), AllocError>
    ensures { OnOk result (row.new.items ≡ row.old.items ++ link_item link.now) }
{
    match link {
        Link::Or(operand) => {
            add_item(Item::Or, row)?;
            add_expr(operand, row)
        }
        Link::And(operand) => {
            add_item(Item::And, row)?;
            add_expr(operand, row)
        }
        Link::Less(operand) => {
            add_item(Item::Less, row)?;
            add_expr(operand, row)
        }
    }
}

/// Adds the operands of a row of `|`, `&` and `-`.
#[cycle(walk)]
fn add_links(links: &[Link<Atom>], row: &mut Vec<Token>) -> Result<(), AllocError>
    ensures { OnOk result (row.new.items ≡ row.old.items ++ link_row (links_of links.now)) }
{
    'links: for link in links {
        add_link(link, row)?;
    }
    add_end(Row::Links, row)
}

/// Adds a context.
#[cycle(walk)]
fn add_context(context: &Context<Atom>, row: &mut Vec<Token>) -> Result<(), AllocError>
    ensures { OnOk result (row.new.items ≡ row.old.items ++ context_item context.now) }
{
    add_item(Item::Between, row)?;
    add_expr(&context.left, row)?;
    add_expr(&context.right, row)
}

/// Adds contexts.
#[cycle(walk)]
fn add_contexts(contexts: &[Context<Atom>], row: &mut Vec<Token>) -> Result<(), AllocError>
    ensures { OnOk result (row.new.items ≡ row.old.items ++ context_row (contexts_of contexts.now)) }
{
    'contexts: for context in contexts {
        add_context(context, row)?;
    }
    add_end(Row::Contexts, row)
}

/// Adds an operand of a row of `.x.` and `.o.`.
#[cycle(walk)]
fn add_step(step: &Step<Atom>, row: &mut Vec<Token>) -> Result<(), AllocError>
    ensures { OnOk result (row.new.items ≡ row.old.items ++ step_item step.now) }
{
    match step {
        Step::CrossWith(operand) => {
            add_item(Item::CrossWith, row)?;
            add_expr(operand, row)
        }
        Step::Then(operand) => {
            add_item(Item::Then, row)?;
            add_expr(operand, row)
        }
    }
}

/// Adds the operands of a row of `.x.` and `.o.`.
#[cycle(walk)]
fn add_steps(steps: &[Step<Atom>], row: &mut Vec<Token>) -> Result<(), AllocError>
    ensures { OnOk result (row.new.items ≡ row.old.items ++ step_row (steps_by steps.now)) }
{
    'steps: for step in steps {
        add_step(step, row)?;
    }
    add_end(Row::Steps, row)
}

/// Adds a group of mappings.
#[cycle(walk)]
fn add_group(group: &Group<Atom>, row: &mut Vec<Token>) -> Result<(), AllocError>
    ensures { OnOk result (row.new.items ≡ row.old.items ++ group_item group.now) }
{
    add_item(Item::Rewrite(group.side), row)?;
    add_mappings(&group.maps, row)?;
    add_contexts(&group.contexts, row)
}

/// Adds groups of mappings.
#[cycle(walk)]
fn add_groups(groups: &[Group<Atom>], row: &mut Vec<Token>) -> Result<(), AllocError>
    ensures { OnOk result (row.new.items ≡ row.old.items ++ group_row (groups_of groups.now)) }
{
    'groups: for group in groups {
        add_group(group, row)?;
    }
    add_end(Row::Groups, row)
}

/// Adds a mapping.
#[cycle(walk)]
fn add_mapping(map: &Mapping<Atom>, row: &mut Vec<Token>) -> Result<(), AllocError>
    ensures { OnOk result (row.new.items ≡ row.old.items ++ mapping_item map.now) }
{
    match map {
        Mapping::Plain { centre, result } => {
            add_item(Item::Plain, row)?;
            add_expr(centre, row)?;
            add_expr(result, row)
        }
        Mapping::Markup {
            centre,
            before,
            after,
        } => {
            add_item(Item::Markup, row)?;
            add_expr(centre, row)?;
            add_expr(before, row)?;
            add_expr(after, row)
        }
        Mapping::Insert { result } => {
            add_item(Item::Insert, row)?;
            add_expr(result, row)
        }
    }
}

/// Adds mappings.
#[cycle(walk)]
fn add_mappings(maps: &[Mapping<Atom>], row: &mut Vec<Token>) -> Result<(), AllocError>
    ensures { OnOk result (row.new.items ≡ row.old.items ++ mapping_row (mappings_of maps.now)) }
{
    'maps: for map in maps {
        add_mapping(map, row)?;
    }
    add_end(Row::Mappings, row)
}

ghost use Rattle.std.specs.Prelude.{◌≡◌, ◌++◌, IfErr, IfOk, OnOk};
ghost use Rattle.std.specs.List.{flat_map};
ghost use Rattle.regex_ast.specs.Terms.{term};
ghost use Rattle.expr_leaves.specs.Leaves.{seen};
ghost use Rattle.name_order.specs.Graph.{graph_of};
ghost use Rattle.name_order.specs.Orders.{HasNoCycle, IsOrder};
ghost use Rattle.project_sources.specs.Refusals.{IsRefusedBy};
ghost use Rattle.name_resolution.specs.Symbols.{terms_behind};
ghost use Rattle.project_definitions.specs.Plain.{body_of};
ghost use Rattle.project_definitions.specs.Referring.{CycleFault, body_places, place_in, places_in, references_of};

use crate::definition::{Body, Definition};
use expr_leaves::leaves;
use name_order::{Order, order_of};
use name_resolution::expressions;
use project_sources::{PlanError, refused};
use regex_ast::{Atom, Expr, Why};
use std::alloc::{AllocError, Global};

/// Puts a place behind others, where it is one of so many.
fn add_below(place: u32, count: usize, places: &mut Vec<u32>) -> Result<(), AllocError>
    ensures { OnOk result (places.new.items ≡ places.old.items ++ place_in count (Atom.Name place)) }
{
    if place as usize >= count {
        return Ok(());
    }
    places.push(place)?;
    Ok(())
}

/// Puts the place of a leaf behind others, where it is a name and its place one of so many.
fn add_place(leaf: &Atom, count: usize, places: &mut Vec<u32>) -> Result<(), AllocError>
    ensures { OnOk result (places.new.items ≡ places.old.items ++ place_in count leaf.now) }
{
    match *leaf {
        Atom::Sym(_) => Ok(()),
        Atom::Name(place) => add_below(place, count, places),
    }
}

/// Puts the places of those leaves that are names behind others, where they are of so many.
fn add_places(leaves: &[&Atom], count: usize, places: &mut Vec<u32>) -> Result<(), AllocError>
    ensures { OnOk result (places.new.items ≡ places.old.items ++ flat_map (place_in count) (seen leaves.now)) }
{
    'leaves: for leaf in leaves {
        add_place(leaf, count, places)?;
    }
    Ok(())
}

/// Puts the places of the names in an expression behind others, where they are of so many.
fn add_places_in(
    alloc: Global,
    expr: &Expr<Atom>,
    count: usize,
    places: &mut Vec<u32>,
) -> Result<(), AllocError>
    ensures { OnOk result (places.new.items ≡ places.old.items ++ places_in count (term expr.now)) }
{
    add_places(&leaves(alloc, expr)?, count, places)?;
    Ok(())
}

/// Puts the places of the names in expressions behind others, where they are of so many.
fn add_places_of_each(
    alloc: Global,
    exprs: &[&Expr<Atom>],
    count: usize,
    places: &mut Vec<u32>,
) -> Result<(), AllocError>
    ensures { OnOk result (places.new.items ≡ places.old.items ++ flat_map (places_in count) (terms_behind exprs.now)) }
{
    'exprs: for expr in exprs {
        add_places_in(alloc, expr, count, places)?;
    }
    Ok(())
}

/// The places of the names in a definition, of so many. In a grammar no name stands.
fn places_of(alloc: Global, body: &Body<Atom>, count: usize) -> Result<Vec<u32>, AllocError>
    ensures { IfOk result (λ places. places.items ≡ body_places count (body_of body.now)) }
{
    let mut places = Vec::new(alloc);
    match body {
        Body::Xfst(expr) => add_places_in(alloc, expr, count, &mut places)?,
        Body::Lexc(lexicons) => {
            add_places_of_each(alloc, &expressions(alloc, lexicons)?, count, &mut places)?
        }
        Body::Twolc(_) => {}
    }
    Ok(places)
}

/// For each definition the places of those that it refers to.
fn references_of(alloc: Global, definitions: &[Definition]) -> Result<Vec<Vec<u32>>, AllocError>
    ensures { IfOk result (λ references. graph_of references.items ≡ references_of definitions.now) }
{
    let mut references = Vec::new(alloc);
    'definitions: for definition in definitions {
        references.push(places_of(alloc, &definition.body, definitions.len())?)?;
    }
    Ok(references)
}

/// The places of definitions in an order in which each stands behind those that it refers to. They are refused at the first
/// definition that reaches itself.
pub fn order_in(alloc: Global, definitions: &[Definition]) -> Result<Vec<usize>, PlanError>
    ensures order { IfOk result (λ order. IsOrder (references_of definitions.now) order.items) }
    ensures acyclic { OnOk result (HasNoCycle (references_of definitions.now)) }
    ensures error { IfErr result (IsRefusedBy (CycleFault definitions.now)) }
{
    let references = references_of(alloc, definitions)?;
    match order_of(alloc, &references)? {
        Order::Behind(order) => Ok(order),
        Order::Cycle(place) => {
            let definition = &definitions[place];
            Err(refused(alloc, definition.file.as_str(), definition.line, Why::Cycle))
        }
    }
}

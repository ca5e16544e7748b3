ghost use Rattle.std.specs.Prelude.{◌≡◌, ◌<◌, ◌++◌, ◌∷◌, [], ℕ, List, None, Option, Some, Contains, IfErr, IfOk, OnOk, length, slice_get};
ghost use Rattle.std.specs.Bool.{OnFalse, OnTrue};
ghost use Rattle.regex_ast.specs.declared.expr.Atom.{Atom as Leaf};
ghost use Rattle.expr_leaves.specs.Leaves.{seen};
ghost use Rattle.project_definitions.specs.Plain.{body_of};
ghost use Rattle.project_store.specs.Centres.{CentresAreBuilt, HasFilled, HasNoCentre, HasNoOwn, IsWhyUnbuilt, OfPlace};
ghost use Rattle.project_store.specs.Building.{AreBuilt, AreNamesAmong, ArePartsOf, HasParts, HasPut, IsBuiltAt, IsThere, expression_leaves};

use crate::project::Project;
use crate::shared::Shared;
use expr_leaves::leaves;
use network_build::{BuildError, Network, Part, body_expressions, build};
use project_definitions::Body;
use regex_ast::Atom;
use std::alloc::{AllocError, Global};

/// Puts the number of a leaf that is a name at its place, if there is such a place.
fn add_name(leaf: &Atom, names: &mut [Option<u32>])
    ensures count { length names.new ≡ length names.old }
    ensures names { (before : List Leaf) → AreNamesAmong before names.old → AreNamesAmong (before ++ leaf.now ∷ []) names.new }
{
    let Atom::Name(name) = *leaf else {
        return;
    };
    let place = name as usize;
    if place >= names.len() {
        return;
    }
    names[place] = Some(name);
}

/// The numbers of the names among leaves, each at its place, of so many.
fn names_among(
    alloc: Global,
    leaves: &[&Atom],
    count: usize,
) -> Result<Vec<Option<u32>>, AllocError>
    ensures count { IfOk result (λ names. length names.items ≡ count) }
    ensures names { IfOk result (λ names. AreNamesAmong (seen leaves.now) names.items) }
{
    let mut names = vec![in alloc; None; count]?;
    'leaves: for leaf in leaves {
        add_name(leaf, &mut names);
    }
    Ok(names)
}

/// Puts the part of a name behind others, where there is a name and it has a network.
fn add_part<'a>(
    name: Option<u32>,
    network: &'a Option<Shared>,
    parts: &mut Vec<Part<'a>>,
) -> Result<(), AllocError>
    ensures { OnOk result (HasPut name network.now parts.old.items parts.new.items) }
{
    if let (Some(name), Some(shared)) = (name, network) {
        let network = shared.network();
        parts.push(Part { name, network })?;
    }
    Ok(())
}

/// The parts of names that have networks, in the order of their places.
fn parts_at<'a>(
    alloc: Global,
    names: &[Option<u32>],
    built: &'a [Option<Shared>],
) -> Result<Vec<Part<'a>>, AllocError>
    requires count { length names.now ≡ length built.now }
    requires own { (place name : ℕ) → slice_get names.now place ≡ Some (Some name) → name ≡ place }
    ensures { IfOk result (λ parts. ArePartsOf names.now built.now parts.items) }
{
    let mut parts = Vec::new(alloc);
    'places: for place in 0..names.len() {
        add_part(names[place], &built[place], &mut parts)?;
    }
    Ok(parts)
}

/// The leaves that stand in the expressions of what a name stands for.
pub fn leaves_of(alloc: Global, body: &Body<Atom>) -> Result<Vec<&Atom>, AllocError>
    ensures { IfOk result (λ found. seen found.items ≡ expression_leaves (body_of body.now)) }
{
    let expressions = body_expressions(alloc, body)?;
    let mut found = Vec::new(alloc);
    'expressions: for expr in &expressions {
        found.extend_from_slice(&leaves(alloc, expr)?)?;
    }
    Ok(found)
}

/// The parts of the names in what a name stands for, among the networks that are built.
fn parts_of<'a>(
    alloc: Global,
    body: &Body<Atom>,
    built: &'a [Option<Shared>],
) -> Result<Vec<Part<'a>>, AllocError>
    ensures { IfOk result (λ parts. (names : List (Option ℕ)) × (length names ≡ length built.now) × AreNamesAmong (expression_leaves (body_of body.now)) names × ArePartsOf names built.now parts.items) }
{
    let names = names_among(alloc, &leaves_of(alloc, body)?, built.len())?;
    parts_at(alloc, &names, built)
}

/// The network of the definition at a place, of the networks that are built; there is none where one of its own centres has
/// the empty word.
pub fn built_of(
    alloc: Global,
    project: &Project,
    place: usize,
    built: &[Option<Shared>],
) -> Result<Network, BuildError>
    requires place { place < length project.now.definitions }
    requires built { AreBuilt project.now built.now }
    requires parts { HasParts project.now built.now place }
    ensures network { IfOk result (IsBuiltAt project.now place) }
    ensures filled { OnOk result (OfPlace project.now place HasNoOwn) }
    ensures error { IfErr result (IsWhyUnbuilt project.now place) }
{
    let plan = project.plan();
    let all = plan.definitions();
    let definition = &all[place];
    let parts = parts_of(alloc, &definition.body, built)?;
    build(alloc, definition, project.alphabet(), &parts)
}

/// The network of the definition at a place, which has no centre, of the networks that are built.
fn plainly_built(
    alloc: Global,
    project: &Project,
    place: usize,
    built: &[Option<Shared>],
) -> Result<Network, AllocError>
    requires place { place < length project.now.definitions }
    requires built { AreBuilt project.now built.now }
    requires parts { HasParts project.now built.now place }
    requires plain { HasNoCentre project.now place }
    ensures network { IfOk result (IsBuiltAt project.now place) }
    ensures filled { OnOk result (OfPlace project.now place HasNoOwn) }
{
    match built_of(alloc, project, place, built) {
        Ok(network) => Ok(network),
        Err(BuildError::Memory(error)) => Err(error),
        Err(BuildError::EmptyCentre { .. }) => unreachable!(),
    }
}

/// No networks, for so many definitions.
pub fn none_built(alloc: Global, count: usize) -> Result<Vec<Option<Shared>>, AllocError>
    ensures count { IfOk result (λ built. length built.items ≡ count) }
    ensures none { IfOk result (λ built. (place : ℕ) → place < count → slice_get built.items place ≡ Some None) }
{
    let mut built = Vec::new(alloc);
    'places: for _ in 0..count {
        built.push(None)?;
    }
    Ok(built)
}

/// Whether the definition at a place has its network.
pub fn has_network(built: &[Option<Shared>], place: usize) -> bool
    requires { place < length built.now }
    ensures yes { OnTrue result (IsThere built.now place) }
    ensures no { OnFalse result (slice_get built.now place ≡ Some None) }
{
    match &built[place] {
        Some(_) => true,
        None => false,
    }
}

/// Builds the network of the definition at a place, where it isn't built already.
pub fn fill(
    alloc: Global,
    project: &Project,
    place: usize,
    built: &mut Vec<Option<Shared>>,
) -> Result<(), AllocError>
    requires place { place < length project.now.definitions }
    requires built { CentresAreBuilt project.now built.old.items }
    requires parts { HasParts project.now built.old.items place }
    ensures { OnOk result (HasFilled project.now place built.old.items built.new.items) }
{
    if has_network(built, place) {
        return Ok(());
    }
    let network = plainly_built(alloc, project, place, built)?;
    let shared = Shared::of(alloc, network)?;
    built[place] = Some(shared);
    Ok(())
}

/// Takes the network at a place.
fn taken(built: &mut [Option<Shared>], place: usize) -> Shared
    requires { IsThere built.old place }
    ensures { slice_get built.old place ≡ Some (Some result) }
{
    let Some(network) = built[place].take() else {
        unreachable!()
    };
    network
}

/// The network of the definition at a place. The definitions that the project puts before it are built first, each once, since
/// it may be made of their networks; those with centres are built already.
pub fn network_at(
    alloc: Global,
    project: &Project,
    mut built: Vec<Option<Shared>>,
    place: usize,
) -> Result<Network, AllocError>
    requires place { place < length project.now.definitions }
    requires centres { CentresAreBuilt project.now built.items }
    ensures { IfOk result (IsBuiltAt project.now place) }
{
    let plan = project.plan();
    let order = plan.order();
    'order: for next in order {
        fill(alloc, project, *next, &mut built)?;
        if *next == place {
            return taken(&mut built, place).into_network(alloc);
        }
    }
    unreachable!()
}

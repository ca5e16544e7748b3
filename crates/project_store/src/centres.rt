ghost use Rattle.std.specs.Prelude.{◌≡◌, ◌≤◌, ◌<◌, ℕ, [], All, Contains, IfOk, MatchOption, None, Some, false, length, replicate, slice_get};
ghost use Rattle.std.specs.Bool.{OnFalse, OnTrue};
ghost use Rattle.project_meaning.specs.Centres.{centres_in};
ghost use Rattle.project_definitions.specs.Plain.{body_of};
ghost use Rattle.project_definitions.specs.declared.definition.Definition.{Definition as Defined};
ghost use Rattle.regex_ast.specs.declared.expr.Atom.{Atom as Leaf};
ghost use Rattle.regex_ast.specs.Terms.{term};
ghost use Rattle.project_store.specs.Building.{expression_leaves};
ghost use Rattle.project_store.specs.Centres.{AreClear, AreFree, AreTried, HasNoNetwork, IsFirstMark, IsOutcome, body_centres, with_empty, with_network};
ghost use Rattle.project_store.specs.Sharing.{StayThere};

use crate::building::{built_of, has_network, leaves_of};
use crate::project::Project;
use crate::shared::Shared;
use network_build::{BuildError, body_expressions};
use network_centres::centres;
use project_definitions::{Body, Definition};
use regex_ast::{Atom, Expr};
use std::alloc::{AllocError, Global};

/// What comes of a definition that is tried.
#[derive(Drop)]
pub enum Outcome {
    /// It has its network already.
    Stands,
    /// Its network.
    Built(Shared),
    /// One of its own centres has the empty word.
    EmptyCentre,
    /// It refers to a definition of which nothing was built.
    Behind,
}

/// What came of the definitions that were tried, each at its place.
#[derive(Drop)]
pub struct Tried {
    /// The networks that are built.
    pub built: Vec<Option<Shared>>,
    /// Which definitions have an empty centre.
    pub empty: Vec<bool>,
}

impl Tried {
    /// No definition was tried; these networks were there before.
    fn none(alloc: Global, built: Vec<Option<Shared>>) -> Result<Tried, AllocError>
        ensures built { IfOk result (λ tried. tried.built.items ≡ built.items) }
        ensures empty { IfOk result (λ tried. tried.empty.items ≡ replicate (length built.items) false) }
    {
        let empty = vec![in alloc; false; built.len()]?;
        Ok(Tried { built, empty })
    }

    /// The place of the first definition that has an empty centre.
    pub fn first_empty(&self) -> Option<usize>
        ensures { MatchOption result (AreClear (length self.now.empty.items) self.now.empty.items) (IsFirstMark self.now.empty.items) }
    {
        'marks: for (place, empty) in self.empty.iter().enumerate() {
            if *empty {
                return Some(place);
            }
        }
        None
    }

    /// Puts what came of a definition at its place.
    fn put(&mut self, place: usize, outcome: Outcome)
        requires built { place < length self.old.built.items }
        requires empty { place < length self.old.empty.items }
        ensures built { self.new.built.items ≡ with_network outcome place self.old.built.items }
        ensures empty { self.new.empty.items ≡ with_empty outcome place self.old.empty.items }
    {
        match outcome {
            Outcome::Built(network) => self.built[place] = Some(network),
            Outcome::EmptyCentre => self.empty[place] = true,
            Outcome::Stands | Outcome::Behind => {}
        }
    }
}

/// Whether a rule of replacement with a centre stands in an expression.
fn has_centre_in(alloc: Global, expr: &Expr<Atom>) -> Result<bool, AllocError>
    ensures { IfOk result (λ has. OnFalse has (centres_in (term expr.now) ≡ [])) }
{
    Ok(!centres(alloc, expr)?.is_empty())
}

/// Whether a rule of replacement with a centre stands in what a name stands for.
fn has_centre(alloc: Global, body: &Body<Atom>) -> Result<bool, AllocError>
    ensures { IfOk result (λ has. OnFalse has (body_centres (body_of body.now) ≡ [])) }
{
    let expressions = body_expressions(alloc, body)?;
    'expressions: for expr in &expressions {
        if has_centre_in(alloc, expr)? {
            return Ok(true);
        }
    }
    Ok(false)
}

/// How long the front of an order is in which all definitions with centres stand.
fn end_of_centres(
    alloc: Global,
    definitions: &[Definition],
    order: &[usize],
) -> Result<usize, AllocError>
    requires { All (λ place. place < length definitions.now) order.now }
    ensures within { IfOk result (λ end. end ≤ length order.now) }
    ensures behind { IfOk result (λ end. (i place : ℕ) (d : Defined) → end ≤ i → slice_get order.now i ≡ Some place → slice_get definitions.now place ≡ Some d → body_centres (body_of d.body) ≡ []) }
{
    let mut end = 0;
    'order: for (index, place) in order.iter().enumerate() {
        if has_centre(alloc, &definitions[*place].body)? {
            end = index + 1;
        }
    }
    Ok(end)
}

/// Whether a leaf is the name of a definition that has no network.
fn has_no_network(leaf: &Atom, built: &[Option<Shared>]) -> bool
    ensures yes { OnTrue result (HasNoNetwork built.now leaf.now) }
    ensures no { OnFalse result (HasNoNetwork built.now leaf.now → ⊥) }
{
    match leaf {
        Atom::Sym(_) => false,
        Atom::Name(name) => matches!(built.get(*name as usize), Some(None)),
    }
}

/// Whether one of the names in what a name stands for has no network.
fn lacks_part(
    alloc: Global,
    body: &Body<Atom>,
    built: &[Option<Shared>],
) -> Result<bool, AllocError>
    ensures yes { IfOk result (λ lacks. OnTrue lacks ((leaf : Leaf) × Contains (expression_leaves (body_of body.now)) leaf × HasNoNetwork built.now leaf)) }
    ensures no { IfOk result (λ lacks. OnFalse lacks (All (λ leaf. HasNoNetwork built.now leaf → ⊥) (expression_leaves (body_of body.now)))) }
{
    let leaves = leaves_of(alloc, body)?;
    'leaves: for leaf in &leaves {
        if has_no_network(leaf, built) {
            return Ok(true);
        }
    }
    Ok(false)
}

/// Tries the definition at a place. One that has its network already, and one that refers to a definition without network, isn't built.
fn outcome_of(
    alloc: Global,
    project: &Project,
    place: usize,
    built: &[Option<Shared>],
) -> Result<Outcome, AllocError>
    requires place { place < length project.now.definitions }
    requires free { AreFree project.now built.now }
    ensures { IfOk result (IsOutcome project.now built.now place) }
{
    if has_network(built, place) {
        return Ok(Outcome::Stands);
    }
    let plan = project.plan();
    let all = plan.definitions();
    if lacks_part(alloc, &all[place].body, built)? {
        return Ok(Outcome::Behind);
    }
    match built_of(alloc, project, place, built) {
        Ok(network) => {
            let shared = Shared::of(alloc, network)?;
            Ok(Outcome::Built(shared))
        }
        Err(BuildError::EmptyCentre { .. }) => Ok(Outcome::EmptyCentre),
        Err(BuildError::Memory(error)) => Err(error),
    }
}

/// Tries definitions in the order of the project, until all with centres are tried. One that refers to an empty centre, in any
/// number of steps, has no network. Those whose networks are built before have no empty centre, and aren't built again.
pub fn try_centres(
    alloc: Global,
    project: &Project,
    built: Vec<Option<Shared>>,
) -> Result<Tried, AllocError>
    requires { AreFree project.now built.items }
    ensures tried { IfOk result (λ tried. AreTried project.now tried.built.items tried.empty.items) }
    ensures stay { IfOk result (λ tried. StayThere built.items tried.built.items) }
{
    let plan = project.plan();
    let definitions = plan.definitions();
    let order = plan.order();
    let end = end_of_centres(alloc, definitions, order)?;
    let mut tried = Tried::none(alloc, built)?;
    let front = &order[..end];
    'order: for place in front {
        let outcome = outcome_of(alloc, project, *place, &tried.built)?;
        tried.put(*place, outcome);
    }
    Ok(tried)
}

ghost use Rattle.std.specs.Prelude.{◌≡◌, ◌<◌, ◌≤◌, ◌+◌, ◌↔◌, ◌++◌, ◌∷◌, [], ◌⊎◌, ℕ, List, Some, None, Contains, IfOk, IfSome, IfNone, OnOk, length, slice_get};
ghost use Rattle.fsa.specs.declared.automaton.Edge.{Edge};
ghost use Rattle.lookup.specs.Graph.{Connects, IsWithin, Leads};
ghost use Rattle.lookup.specs.Tree.{AddsStep, AreDownward, AreSteps, AreReversed, IsGrowing, IsTree, reversed as reversed_of};

use fsa::Edge;
use fsa_explore::{EdgesByState, NumberSet};
use fsm_base::Letter;
use std::alloc::{AllocError, Global};

/// How a node was reached.
#[derive(Clone, Copy, Debug)]
pub(crate) struct Step<L> {
    /// Which node was before it, by its number in the order in which they were found.
    pub(crate) before: usize,
    /// The edge that leads on from there.
    pub(crate) edge: Edge<L>,
}

/// The nodes that edges lead to from a root, and how.
#[derive(Drop)]
pub(crate) struct Tree<L> {
    /// The nodes, in the order in which they were found.
    pub(crate) reached: NumberSet,
    /// How each of them was reached: the root by no step.
    pub(crate) steps: Vec<Option<Step<L>>>,
}

/// The edges, each the other way round.
pub(crate) fn reversed_rows<L: Letter>(
    alloc: Global,
    edges: &[Edge<L>],
) -> Result<EdgesByState<L>, AllocError>
    ensures { IfOk result (AreReversed edges.now) }
{
    let mut others = Vec::with_capacity(alloc, edges.len())?;
    for edge in edges {
        others.push(reversed(*edge))?;
    }
    let rows = EdgesByState::of(alloc, &others)?;
    Ok(rows)
}

/// The edge the other way round.
fn reversed<L: Letter>(edge: Edge<L>) -> Edge<L>
    ensures { result ≡ reversed_of edge }
{
    Edge {
        from: edge.to,
        letter: edge.letter,
        to: edge.from,
    }
}

/// The nodes that the edges lead to from the root, each looked at once. `count` is the count of the nodes.
pub(crate) fn grow<L: Letter>(
    alloc: Global,
    rows: &EdgesByState<L>,
    count: usize,
    root: usize,
) -> Result<Tree<L>, AllocError>
    requires within { IsWithin rows.now count }
    requires root { root < count }
    ensures bound { IfOk result (λ tree. tree.reached.bound ≡ count) }
    ensures tree { IfOk result (IsTree rows.now root) }
{
    let mut tree = planted(alloc, count, root)?;
    let mut number = 0;
    while number < tree.reached.found().len() {
        follow(rows, number, &mut tree)?;
        number += 1;
    }
    Ok(tree)
}

/// The root alone, reached by no step.
fn planted<L: Letter>(alloc: Global, count: usize, root: usize) -> Result<Tree<L>, AllocError>
    requires { root < count }
    ensures bound { IfOk result (λ tree. tree.reached.bound ≡ count) }
    ensures reached { IfOk result (λ tree. tree.reached.found ≡ root ∷ []) }
    ensures steps { IfOk result (λ tree. tree.steps.items ≡ None ∷ []) }
{
    let mut reached = NumberSet::new(alloc, count)?;
    reached.add(root)?;
    let mut steps = Vec::new(alloc);
    steps.push(None)?;
    Ok(Tree { reached, steps })
}

/// Follows the edges that leave the node with the number.
fn follow<L: Letter>(
    rows: &EdgesByState<L>,
    number: usize,
    tree: &mut Tree<L>,
) -> Result<(), AllocError>
    requires within { IsWithin rows.now tree.old.reached.bound }
    requires number { number < length tree.old.reached.found }
    ensures bound { OnOk result (tree.new.reached.bound ≡ tree.old.reached.bound) }
    ensures grown { OnOk result ((root : ℕ) → IsGrowing rows.now root number tree.old → IsGrowing rows.now root (number + 1) tree.new) }
{
    for edge in rows.out(tree.reached.found()[number]) {
        reach(
            tree,
            Step {
                before: number,
                edge: *edge,
            },
        )?;
    }
    Ok(())
}

/// Reaches the node that the step's edge enters, if it wasn't reached before.
fn reach<L: Letter>(tree: &mut Tree<L>, step: Step<L>) -> Result<(), AllocError>
    requires { step.edge.to < tree.old.reached.bound }
    ensures { OnOk result (AddsStep tree.old step tree.new) }
{
    if tree.reached.contains(step.edge.to) {
        return Ok(());
    }
    tree.reached.add(step.edge.to)?;
    tree.steps.push(Some(step))?;
    Ok(())
}

/// The letters on a path from a node to the root, in a tree that grew along edges the other way round, or None
/// where no path leads from the node to the root.
pub(crate) fn word_from<L: Letter>(
    alloc: Global,
    tree: &Tree<L>,
    node: usize,
) -> Result<Option<Vec<L>>, AllocError>
    requires { (rows : List (Edge L)) × ((root : ℕ) × IsTree rows root tree.now) }
    ensures some { IfOk result (λ found. IfSome found (λ word. (edges rows : List (Edge L)) (root : ℕ) → AreReversed edges rows → IsTree rows root tree.now → Connects edges node word.items root)) }
    ensures none { IfOk result (λ found. IfNone found ((edges rows : List (Edge L)) (root : ℕ) → AreReversed edges rows → IsTree rows root tree.now → ¬ Leads edges node root)) }
{
    match place_of(tree.reached.found(), node) {
        Some(number) => Ok(Some(word_back(alloc, &tree.steps, number)?)),
        None => Ok(None),
    }
}

/// The place of a node in a list.
fn place_of(nodes: &[usize], node: usize) -> Option<usize>
    ensures some { IfSome result (λ place. slice_get nodes.now place ≡ Some node) }
    ensures none { IfNone result (¬ Contains nodes.now node) }
{
    for (place, found) in nodes.iter().enumerate() {
        if *found == node {
            return Some(place);
        }
    }
    None
}

/// The letters on the way from the node with the number back to the root.
fn word_back<L: Letter>(
    alloc: Global,
    steps: &[Option<Step<L>>],
    number: usize,
) -> Result<Vec<L>, AllocError>
    requires number { number < length steps.now }
    requires downward { AreDownward steps.now }
    ensures { IfOk result (λ word. (edges rows : List (Edge L)) (root node : ℕ) (found : List ℕ) → AreReversed edges rows → AreSteps rows root found steps.now → slice_get found number ≡ Some node → Connects edges node word.items root) }
{
    let mut word = Vec::new(alloc);
    let mut at = number;
    'steps: while let Some(step) = steps[at] {
        if let Some(letter) = step.edge.letter {
            word.push(letter)?;
        }
        at = step.before;
    }
    Ok(word)
}

ghost use Rattle.std.specs.Prelude.{◌≡◌, ◌<◌, IfOk, vec_len};
ghost use Rattle.lookup.specs.Graph.{IsWithin};

use crate::START;
use fsa::Edge;
use fsm_base::Letter;
use std::alloc::{AllocError, Global};

/// The search for strongly connected components (Tarjan, Depth-first search and linear graph algorithms, SIAM
/// Journal on Computing 1, 1972). An entry of 0 stands for none.
#[derive(Drop)]
struct Search {
    /// How many nodes were entered.
    entered: usize,
    /// The place of each node in the order in which they were entered, from 1 on.
    order: Vec<usize>,
    /// The least order among the nodes of open components that the node was seen to lead to.
    lowest: Vec<usize>,
    /// The number of the component of each node, from 1 on, in the order in which the components were closed.
    levels: Vec<usize>,
    /// How many components were closed.
    closed: usize,
    /// The nodes on the path that is followed, each with the number of its edge that is taken next, from 1 on.
    path: Vec<(usize, usize)>,
    /// The nodes whose component isn't closed.
    open: Vec<usize>,
}

/// A level for each node: the number of its strongly connected component, so that no edge leads from a component to
/// one with a greater number. A node that the start doesn't lead to has the level 0. The caller looks whether the
/// levels are as it needs them, so nothing is promised of them but their count.
pub(crate) fn levels<L: Letter>(
    alloc: Global,
    edges: &[Edge<L>],
    count: usize,
) -> Result<Vec<usize>, AllocError>
    ensures { IfOk result (λ levels. vec_len levels ≡ count) }
{
    let leaving = Leaving::of(alloc, edges, count)?;
    let mut search = Search::new(alloc, count)?;
    search.enter(START, at(&leaving.first, START))?;
    // Each step takes an edge or leaves a node.
    'steps: for _ in 0..edges.len().saturating_add(count) {
        search.step(edges, &leaving)?;
    }
    Ok(search.levels)
}

/// The edges that leave each node, by their numbers from 1 on. An entry of 0 stands for none.
#[derive(Drop)]
struct Leaving {
    /// The last of the edges that leave each node.
    first: Vec<usize>,
    /// The edge before each edge that leaves the same node.
    next: Vec<usize>,
}

impl Leaving {
    /// Chains the edges that leave the same node.
    fn of<L: Letter>(
        alloc: Global,
        edges: &[Edge<L>],
        count: usize,
    ) -> Result<Leaving, AllocError> {
        let mut first = vec![in alloc; 0; count]?;
        let mut next = Vec::with_capacity(alloc, edges.len())?;
        for (place, edge) in edges.iter().enumerate() {
            next.push(at(&first, edge.from))?;
            put(&mut first, edge.from, place.saturating_add(1));
        }
        Ok(Leaving { first, next })
    }
}

impl Search {
    /// No node was entered yet.
    fn new(alloc: Global, count: usize) -> Result<Search, AllocError>
        ensures { IfOk result (λ search. vec_len search.levels ≡ count) }
    {
        Ok(Search {
            entered: 0,
            order: vec![in alloc; 0; count]?,
            lowest: vec![in alloc; 0; count]?,
            levels: vec![in alloc; 0; count]?,
            closed: 0,
            path: Vec::new(alloc),
            open: Vec::new(alloc),
        })
    }

    /// Enters a node for the first time. `edge` is the number of the first of its edges.
    fn enter(&mut self, node: usize, edge: usize) -> Result<(), AllocError>
        ensures { self.new.levels ≡ self.old.levels }
    {
        self.entered = self.entered.saturating_add(1);
        put(&mut self.order, node, self.entered);
        put(&mut self.lowest, node, self.entered);
        self.path.push((node, edge))?;
        self.open.push(node)?;
        Ok(())
    }

    /// Takes the next edge of the last node on the path, or leaves that node where there is none.
    fn step<L: Letter>(&mut self, edges: &[Edge<L>], leaving: &Leaving) -> Result<(), AllocError>
        ensures { vec_len self.new.levels ≡ vec_len self.old.levels }
    {
        let Some((node, number)) = self.path.pop() else {
            return Ok(());
        };
        match number.checked_sub(1) {
            Some(place) => {
                self.path.push((node, at(&leaving.next, place)))?;
                if let Some(edge) = edges.get(place) {
                    self.take(node, edge.to, at(&leaving.first, edge.to))?;
                }
            }
            None => self.leave(node),
        }
        Ok(())
    }

    /// Takes an edge from the last node on the path to a node. `edge` is the number of the first edge of that.
    fn take(&mut self, node: usize, to: usize, edge: usize) -> Result<(), AllocError>
        ensures { vec_len self.new.levels ≡ vec_len self.old.levels }
    {
        if at(&self.order, to) == 0 {
            self.enter(to, edge)?;
        } else if at(&self.levels, to) == 0 {
            let lowest = at(&self.lowest, to);
            self.lower(node, lowest);
        }
        Ok(())
    }

    /// Leaves a node, which isn't on the path any more. Where it is the first of its component, that is closed.
    fn leave(&mut self, node: usize)
        ensures { vec_len self.new.levels ≡ vec_len self.old.levels }
    {
        let lowest = at(&self.lowest, node);
        if lowest == at(&self.order, node) {
            self.close(node);
        }
        if let Some((before, _)) = self.path.last().copied() {
            self.lower(before, lowest);
        }
    }

    /// Closes the component that begins with the node.
    fn close(&mut self, first: usize)
        ensures { vec_len self.new.levels ≡ vec_len self.old.levels }
    {
        self.closed = self.closed.saturating_add(1);
        'nodes: while let Some(node) = self.open.pop() {
            put(&mut self.levels, node, self.closed);
            if node == first {
                break;
            }
        }
    }

    /// A node leads to a node of an open component with this order.
    fn lower(&mut self, node: usize, order: usize)
        ensures { self.new.levels ≡ self.old.levels }
    {
        let lowest = at(&self.lowest, node).min(order);
        put(&mut self.lowest, node, lowest);
    }
}

/// The entry of a node, or 0 where there is none.
fn at(entries: &[usize], node: usize) -> usize {
    entries.get(node).copied().unwrap_or(0)
}

/// Sets the entry of a node, where there is one.
fn put(entries: &mut [usize], node: usize, value: usize) {
    if let Some(entry) = entries.get_mut(node) {
        *entry = value;
    }
}

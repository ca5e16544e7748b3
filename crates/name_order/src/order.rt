ghost use Rattle.std.specs.Prelude.{◌<◌, IfOk, length};
ghost use Rattle.name_order.specs.Graph.{IsWhole, Reaches, graph_of};
ghost use Rattle.name_order.specs.Orders.{IsFirstCycle, IsOrdered};

use crate::reach::reaches_itself;
use crate::visit::{Visits, visit};
use std::alloc::{AllocError, Global};

/// The order of places that refer to one another.
#[derive(Debug, Drop)]
pub enum Order {
    /// Each place once, behind all that it refers to.
    Behind(Vec<usize>),
    /// The first place that reaches itself.
    Cycle(usize),
}

/// The order of places, by the list of those that each refers to; places are counted from 0. Time and memory are linear in
/// the number of places and references where no place reaches itself; else each place up to the first that does is searched
/// from. Calls are nested as deep as references are.
pub fn order_of(alloc: Global, references: &[Vec<u32>]) -> Result<Order, AllocError>
    requires { IsWhole (graph_of references.now) }
    ensures { IfOk result (IsOrdered (graph_of references.now)) }
{
    let mut visits = Visits::new(alloc, references.len())?;
    'places: for place in 0..references.len() {
        if let Some(met) = visit(references, place, &mut visits)? {
            let first = first_cycle(alloc, references, met)?;
            return Ok(Order::Cycle(first));
        }
    }
    Ok(Order::Behind(visits.order))
}

/// The first place that reaches itself, by one that does.
fn first_cycle(alloc: Global, references: &[Vec<u32>], met: usize) -> Result<usize, AllocError>
    requires whole { IsWhole (graph_of references.now) }
    requires within { met < length references.now }
    requires itself { Reaches (graph_of references.now) met met }
    ensures { IfOk result (IsFirstCycle (graph_of references.now)) }
{
    'places: for place in 0..met {
        if reaches_itself(alloc, references, place)? {
            return Ok(place);
        }
    }
    Ok(met)
}

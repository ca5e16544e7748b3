ghost use Rattle.std.specs.Prelude.{◌≡◌, ◌<◌, ℕ, List, IfOk, IfNone, IfSome, length};
ghost use Rattle.name_order.specs.Graph.{IsWhole, Reaches, graph_of};
ghost use Rattle.name_order.specs.Visits.{AreVisits, IsOpen, Visited};

use std::alloc::{AllocError, Global};

/// How far the visit of a place has come.
#[derive(Clone, Copy, Debug, PartialEq, Eq)]
pub(crate) enum Mark {
    /// It hasn't begun.
    New,
    /// Places that it refers to are visited.
    Open,
    /// All that it refers to was visited.
    Done,
}

/// The visits of places.
#[derive(Drop)]
pub(crate) struct Visits {
    /// How far the visit of each place has come.
    pub(crate) marks: Vec<Mark>,
    /// The places that are done, each behind all that it refers to.
    pub(crate) order: Vec<usize>,
}

impl Visits {
    /// So many places, none of them visited.
    pub(crate) fn new(alloc: Global, count: usize) -> Result<Visits, AllocError>
        ensures visits { IfOk result (λ v. (graph : List (List ℕ)) → length graph ≡ count → AreVisits graph v) }
        ensures open { IfOk result (λ v. (place : ℕ) → IsOpen v place → ⊥) }
    {
        Ok(Visits {
            marks: vec![in alloc; Mark::New; count]?,
            order: Vec::new(alloc),
        })
    }
}

/// Visits a place and then all that it reaches, where that wasn't done before. Answers a place that reaches itself, if it
/// meets one.
pub(crate) fn visit(
    references: &[Vec<u32>],
    place: usize,
    visits: &mut Visits,
) -> Result<Option<usize>, AllocError>
    requires whole { IsWhole (graph_of references.now) }
    requires within { place < length references.now }
    requires visits { AreVisits (graph_of references.now) visits.old }
    requires open { (other : ℕ) → IsOpen visits.old other → Reaches (graph_of references.now) other place }
    ensures done { IfOk result (λ met. IfNone met (Visited (graph_of references.now) visits.old visits.new place)) }
    ensures met { IfOk result (λ met. IfSome met (λ other. (other < length references.now) × Reaches (graph_of references.now) other other)) }
{
    match visits.marks[place] {
        Mark::Done => return Ok(None),
        Mark::Open => return Ok(Some(place)),
        Mark::New => {}
    }
    visits.marks[place] = Mark::Open;
    'below: for below in &references[place] {
        if let Some(met) = visit(references, *below as usize, visits)? {
            return Ok(Some(met));
        }
    }
    visits.order.push(place)?;
    visits.marks[place] = Mark::Done;
    Ok(None)
}

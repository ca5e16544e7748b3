ghost use Rattle.std.specs.Prelude.{◌<◌, IfOk, IfSome, IfNone};
ghost use Rattle.word_relations.specs.Answers.{AreAll, AreMore};
ghost use Rattle.lookup.specs.Graph.{IsWithin};
ghost use Rattle.lookup.specs.Turns.{HasNoTurn};
ghost use Rattle.lookup.specs.GraphTexts.{AreOf, GraphTexts};

use crate::bytes::spelled;
use crate::kept::useful;
use crate::listing::listed;
use crate::walk::Walk;
use fsa::Edge;
use fsm_base::{Alphabet, Sym, Text};
use std::alloc::{AllocError, Global};

/// All texts of the graph, each once and in the order of their bytes, or None where they are more than an answer lists.
/// `count` is the count of the nodes. No text is tried that doesn't begin one that is listed.
pub fn texts_of(
    alloc: Global,
    edges: &[Edge<Sym>],
    count: usize,
    alphabet: &Alphabet,
) -> Result<Option<Vec<Text>>, AllocError>
    requires within { IsWithin edges.now count }
    requires start { 1 < count }
    requires symbols { AreOf alphabet.now edges.now }
    requires finite { HasNoTurn edges.now }
    ensures all { IfOk result (λ found. IfSome found (λ texts. AreAll (GraphTexts alphabet.now edges.now) texts.items)) }
    ensures more { IfOk result (λ found. IfNone found (AreMore (GraphTexts alphabet.now edges.now))) }
{
    let graph = spelled(alloc, edges, count, alphabet)?;
    let kept = useful(alloc, &graph.edges, graph.count)?;
    let mut walk = Walk::new(alloc, &kept, graph.count)?;
    let found = listed(alloc, &mut walk)?;
    Ok(found)
}

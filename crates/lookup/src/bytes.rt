ghost use Rattle.std.specs.Prelude.{◌≡◌, ◌<◌, ◌≤◌, ◌+◌, ◌^◌, ◌++◌, ◌↔◌, [], ◌∷◌, ℕ, List, Contains, IfOk, IsUtf8, OnOk, length};
ghost use Rattle.fsa.specs.declared.automaton.Edge.{Edge};
ghost use Rattle.fsm_base.specs.declared.letters.Sym.{Sym};
ghost use Rattle.lookup.specs.Graph.{IsWithin};
ghost use Rattle.lookup.specs.GraphTexts.{AreOf, GraphTexts};
ghost use Rattle.lookup.specs.Spelling.{IsOf, chain, text_on};
ghost use Rattle.lookup.specs.Walks.{WritesText};

use crate::walk::Byte;
use fsa::Edge;
use fsm_base::{Alphabet, Sym, Text};
use std::alloc::{AllocError, Global};

/// A graph whose letters are the bytes of texts.
#[derive(Drop)]
pub(crate) struct ByteGraph {
    /// The edges.
    pub(crate) edges: Vec<Edge<Byte>>,
    /// How many nodes there are.
    pub(crate) count: usize,
}

/// The graph that has a path of bytes in the place of each edge: the bytes of the text of its symbol.
pub(crate) fn spelled(
    alloc: Global,
    edges: &[Edge<Sym>],
    count: usize,
    alphabet: &Alphabet,
) -> Result<ByteGraph, AllocError>
    requires within { IsWithin edges.now count }
    requires start { 1 < count }
    requires symbols { AreOf alphabet.now edges.now }
    ensures within { IfOk result (λ graph. IsWithin graph.edges.items graph.count) }
    ensures start { IfOk result (λ graph. 1 < graph.count) }
    ensures same { IfOk result (λ graph. (text : List ℕ) → WritesText graph.edges.items text ↔ GraphTexts alphabet.now edges.now text) }
    ensures utf8 { IfOk result (λ _. (text : List ℕ) → GraphTexts alphabet.now edges.now text → IsUtf8 text) }
{
    // Where there is memory for a mark of each node, their numbers leave room for those of new nodes.
    let marks = vec![in alloc; false; count]?;
    let mut graph = ByteGraph {
        edges: Vec::new(alloc),
        count: marks.len(),
    };
    for edge in edges {
        let text = text_of(alloc, edge.letter, alphabet)?;
        spell(&mut graph, edge.from, text.as_str().as_bytes(), edge.to)?;
    }
    Ok(graph)
}

/// The text of a symbol of the alphabet, or the empty text where there is none.
fn text_of(alloc: Global, letter: Option<Sym>, alphabet: &Alphabet) -> Result<Text, AllocError>
    requires { IsOf alphabet.now letter }
    ensures { IfOk result (λ text. text ≡ text_on alphabet.now letter) }
{
    let text = match letter {
        Some(symbol) => alphabet.text(alloc, &[symbol])?,
        None => alphabet.text(alloc, &[])?,
    };
    Ok(text)
}

/// Adds a path of these bytes from a node to another, over new nodes.
fn spell(graph: &mut ByteGraph, from: usize, bytes: &[u8], to: usize) -> Result<(), AllocError>
    requires { graph.old.count < 2 ^ 63 + length graph.old.edges.items }
    ensures edges { OnOk result (graph.new.edges.items ≡ graph.old.edges.items ++ chain from graph.old.count bytes.now to) }
    ensures count { OnOk result (graph.new.count ≡ graph.old.count + length bytes.now) }
    ensures room { OnOk result (graph.new.count < 2 ^ 63 + length graph.new.edges.items) }
{
    let mut node = from;
    'bytes: for byte in bytes {
        let next = graph.count;
        graph.count += 1;
        graph.edges.push(Edge {
            from: node,
            letter: Some(Byte(*byte)),
            to: next,
        })?;
        node = next;
    }
    graph.edges.push(Edge {
        from: node,
        letter: None,
        to,
    })?;
    Ok(())
}

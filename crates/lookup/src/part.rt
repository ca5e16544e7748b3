ghost use Rattle.std.specs.Prelude.{◌≡◌, ◌<◌, ◌↔◌, ℕ, List, Some, true, Contains, IfOk, OnOk, IsTrue, length, slice_get};
ghost use Rattle.fsm_base.specs.declared.letters.Pair.{Pair};
ghost use Rattle.fsm_base.specs.declared.letters.Sym.{Sym};
ghost use Rattle.fsa.specs.Automaton.{Automaton};
ghost use Rattle.lookup_answers.specs.declared.direction.Direction.{Direction};
ghost use Rattle.lookup_walk.specs.Answering.{IsOverAlphabet};
ghost use Rattle.lookup_walk.specs.Moves.{AreMoves, IsRelatedBy, IsWritten};
ghost use Rattle.lookup_walk.specs.Nets.{NetRelatesBy};
ghost use Rattle.lookup.specs.Graph.{IsWithin, Writes};
ghost use Rattle.lookup.specs.GraphTexts.{AreOf};
ghost use Rattle.lookup.specs.Obeyed.{HasLetter};
ghost use Rattle.lookup.specs.Steps.{Ends, Follows, Steps};
ghost use Rattle.lookup.specs.Reached.{AddsSteps, IsExplored};

use crate::conditions::obeyed;
use crate::explored::{Config, Explored};
use fsa::Edge;
use fsm_base::Sym;
use lookup_answers::Direction;
use lookup_walk::{Move, Net, Spot, Table, is_final};
use std::alloc::{AllocError, Global};

/// The part of a network that a word reaches, as a graph whose letters are the symbols that are written.
#[derive(Debug, Drop)]
pub(crate) struct Part {
    pub(crate) edges: Vec<Edge<Sym>>,
    /// How many nodes there are.
    pub(crate) count: usize,
}

/// The part of a network that a word reaches. The graph writes just the words that the network relates to the
/// word: conditions are obeyed, and not written.
pub(crate) fn part_of(
    alloc: Global,
    net: &Net,
    direction: Direction,
    word: &[Sym],
) -> Result<Part, AllocError>
    ensures within { IfOk result (λ part. IsWithin part.edges.items part.count) }
    ensures start { IfOk result (λ part. 1 < part.count) }
    ensures symbols { IfOk result (λ part. (alphabet : List (Sym × List ℕ)) → IsOverAlphabet alphabet net.now → AreOf alphabet part.edges.items) }
    ensures words { IfOk result (λ part. (written : List Sym) → Writes part.edges.items written ↔ NetRelatesBy direction net.now word.now written) }
{
    let way = net.way(direction);
    let part = reached(alloc, way.table, way.finals, word)?;
    let Some(rules) = way.rules else {
        return Ok(part);
    };
    let plain = obeyed(alloc, &part, rules)?;
    Ok(plain)
}

/// The part that a word reaches by moves. The graph writes what the moves write, conditions too.
fn reached(alloc: Global, table: &Table, finals: &[bool], word: &[Sym]) -> Result<Part, AllocError>
    ensures within { IfOk result (λ part. IsWithin part.edges.items part.count) }
    ensures start { IfOk result (λ part. 1 < part.count) }
    ensures symbols { IfOk result (λ part. (direction : Direction) (m : Automaton Pair) (symbol : Sym) → AreMoves direction m.edges table.now → HasLetter part.edges.items symbol → IsWritten direction m symbol) }
    ensures words { IfOk result (λ part. (direction : Direction) (m : Automaton Pair) (written : List Sym) → AreMoves direction m.edges table.now → m.finals ≡ finals.now → Writes part.edges.items written ↔ IsRelatedBy direction m word.now written) }
{
    let explored = explore(alloc, table, finals, word)?;
    let count = explored.len() + 1;
    Ok(Part {
        edges: explored.into_edges(),
        count,
    })
}

/// All that steps lead to from the start.
fn explore(
    alloc: Global,
    table: &Table,
    finals: &[bool],
    word: &[Sym],
) -> Result<Explored, AllocError>
    ensures { IfOk result (λ explored. IsExplored (Steps table.now finals.now word.now) (length explored.configs) explored) }
{
    let mut explored = Explored::start(alloc)?;
    let mut next = 0;
    'configs: while next < explored.len() {
        let config = explored.config(next);
        visit(table, finals, word, config, next + 1, &mut explored)?;
        next += 1;
    }
    Ok(explored)
}

/// Adds the steps from a configuration, as edges from its node. What is left after an Err is not said.
fn visit(
    table: &Table,
    finals: &[bool],
    word: &[Sym],
    config: Config,
    node: usize,
    explored: &mut Explored,
) -> Result<(), AllocError>
    ensures { OnOk result (AddsSteps (Steps table.now finals.now word.now config) node explored.old explored.new) }
{
    let Config { place, state } = config;
    let epsilon = table.out(Spot { state, read: None });
    follow(epsilon, place, node, explored)?;
    let Some(symbol) = word.get(place) else {
        end(finals, state, node, explored)?;
        return Ok(());
    };
    let read = Some(*symbol);
    let reading = table.out(Spot { state, read });
    follow(reading, place + 1, node, explored)?;
    Ok(())
}

/// Adds the steps along these moves, which lead to a place of the word.
fn follow(
    moves: &[Move],
    place: usize,
    node: usize,
    explored: &mut Explored,
) -> Result<(), AllocError>
    ensures { OnOk result (AddsSteps (Follows moves.now place) node explored.old explored.new) }
{
    for m in moves {
        let next = Config { place, state: m.to };
        explored.add(node, m.write, Some(next))?;
    }
    Ok(())
}

/// Adds the step to the end, where the state is final.
fn end(
    finals: &[bool],
    state: usize,
    node: usize,
    explored: &mut Explored,
) -> Result<(), AllocError>
    ensures { OnOk result (AddsSteps (Ends finals.now state) node explored.old explored.new) }
{
    if is_final(finals, state) {
        explored.add(node, None, None)?;
    }
    Ok(())
}

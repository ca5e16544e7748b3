ghost use Rattle.std.specs.Prelude.{◌≡◌, ◌+◌, ◌<◌, ◌≤◌, [], IfOk, OnOk, length};
ghost use Rattle.fsa_rational.specs.Shapes.{epsilon, shifted, reversed_by, Extends, ComesFrom, LeavesFinal, EntersFinal, FitsBelow};

use fsa::{Edge, Fsa};
use std::alloc::{AllocError, Global};

/// The states of an automaton, and no edge.
pub fn same_states<L: Copy, M: Copy>(alloc: Global, a: &Fsa<L>) -> Result<Fsa<M>, AllocError>
    ensures { IfOk result (λ m. m ≡ record { edges = []; finals = a.now.finals }) }
{
    let finals = Vec::from_slice(alloc, a.finals())?;
    Ok(Fsa::of_states(alloc, finals))
}

/// Adds edges with the numbers of their states raised.
pub fn add_shifted<L: Copy>(m: &mut Fsa<L>, edges: &[Edge<L>], by: usize) -> Result<(), AllocError>
    requires { FitsBelow edges.now by (length m.old.finals) }
    ensures { OnOk result (Extends m.old m.new (ComesFrom (shifted by) edges.now)) }
{
    let states = m.states();
    for edge in edges {
        prove!(edge.from + by < states);
        prove!(edge.to + by < states);
        m.add_edge(Edge {
            from: edge.from + by,
            letter: edge.letter,
            to: edge.to + by,
        })?;
    }
    Ok(())
}

/// Adds edges in the other direction, with the numbers of their states raised.
pub fn add_reversed<L: Copy>(m: &mut Fsa<L>, edges: &[Edge<L>], by: usize) -> Result<(), AllocError>
    requires { FitsBelow edges.now by (length m.old.finals) }
    ensures { OnOk result (Extends m.old m.new (ComesFrom (reversed_by by) edges.now)) }
{
    let states = m.states();
    for edge in edges {
        prove!(edge.to + by < states);
        prove!(edge.from + by < states);
        m.add_edge(Edge {
            from: edge.to + by,
            letter: edge.letter,
            to: edge.from + by,
        })?;
    }
    Ok(())
}

/// Adds an epsilon edge.
pub fn add_epsilon<L: Copy>(m: &mut Fsa<L>, from: usize, to: usize) -> Result<(), AllocError>
    requires from { from < length m.old.finals }
    requires to { to < length m.old.finals }
    ensures { OnOk result (Extends m.old m.new (λ e. e ≡ epsilon from to)) }
{
    m.add_edge(Edge {
        from,
        letter: None,
        to,
    })
}

/// Adds an epsilon edge from each final state, its number raised, to a state.
pub fn leave_finals<L: Copy>(
    m: &mut Fsa<L>,
    finals: &[bool],
    by: usize,
    to: usize,
) -> Result<(), AllocError>
    requires room { length finals.now + by ≤ length m.old.finals }
    requires to { to < length m.old.finals }
    ensures { OnOk result (Extends m.old m.new (LeavesFinal finals.now by to)) }
{
    prove!(to < m.states());
    for (state, is_final) in finals.iter().enumerate() {
        if *is_final {
            add_epsilon(m, state + by, to)?;
        }
    }
    Ok(())
}

/// Adds an epsilon edge from a state to each final state, its number raised.
pub fn enter_finals<L: Copy>(
    m: &mut Fsa<L>,
    from: usize,
    finals: &[bool],
    by: usize,
) -> Result<(), AllocError>
    requires room { length finals.now + by ≤ length m.old.finals }
    requires from { from < length m.old.finals }
    ensures { OnOk result (Extends m.old m.new (EntersFinal from finals.now by)) }
{
    prove!(from < m.states());
    for (state, is_final) in finals.iter().enumerate() {
        if *is_final {
            add_epsilon(m, from, state + by)?;
        }
    }
    Ok(())
}

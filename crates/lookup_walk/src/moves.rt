ghost use Rattle.std.specs.Prelude.{◌≡◌};
ghost use Rattle.lookup_walk.specs.Moves.{move_of};

use fsa::Edge;
use fsm_base::{Pair, Sym};
use lookup_answers::Direction;

/// Where moves are found: the state that they leave, and the symbol that they read. Those that read nothing come
/// before the others.
#[derive(Clone, Copy, Debug, PartialEq, Eq, PartialOrd, Ord)]
pub struct Spot {
    /// The state.
    pub state: usize,
    /// The symbol, or None.
    pub read: Option<Sym>,
}

/// An edge, as a look-up takes it.
#[derive(Clone, Copy, Debug)]
pub struct Move {
    /// The state that is left, and the symbol that is read there.
    pub at: Spot,
    /// The symbol that is written, or None.
    pub write: Option<Sym>,
    /// The state that is entered.
    pub to: usize,
}

/// The move along an edge.
pub(crate) fn take(direction: Direction, edge: Edge<Pair>) -> Move
    ensures { result ≡ move_of direction edge }
{
    let (upper, lower) = match edge.letter {
        Some(pair) => (pair.up, pair.low),
        None => (None, None),
    };
    let (read, write) = match direction {
        Direction::Up => (lower, upper),
        Direction::Down => (upper, lower),
    };
    Move {
        at: Spot {
            state: edge.from,
            read,
        },
        write,
        to: edge.to,
    }
}

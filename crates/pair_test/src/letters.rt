ghost use Rattle.std.specs.Prelude.{◌≡◌, IfOk};
ghost use Rattle.pair_test.specs.Tests.{placed_letters};

use fsm_base::{Bound, Pair};
use std::alloc::{AllocError, Global};

/// The letters of the automata of contexts: the pairs, and behind them the edge.
pub fn letters_of(alloc: Global, pairs: &[Pair]) -> Result<Vec<Bound<Pair>>, AllocError>
    ensures { IfOk result (λ letters. letters.items ≡ placed_letters pairs.now) }
{
    let mut letters = Vec::new(alloc);
    'pairs: for pair in pairs {
        letters.push(Bound::Inner(*pair))?;
    }
    letters.push(Bound::Edge)?;
    Ok(letters)
}

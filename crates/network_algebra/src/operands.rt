ghost use Rattle.std.specs.Prelude.{IfOk};
ghost use Rattle.network_algebra.specs.Networks.{AreOperands};
ghost use Rattle.network_algebra.specs.declared.network.Network.TheVariants as network;

use crate::network::Network;
use fsa::Fsa;
use fsm_base::{Bound, Pair, Sym};
use fst_flagged::{Flagged, has_no_conditions};
use std::alloc::{AllocError, Global};

/// Two networks of one kind.
#[derive(Drop)]
pub enum Operands {
    /// Two languages.
    Words(Fsa<Bound<Sym>>, Fsa<Bound<Sym>>),
    /// Two relations.
    Pairs(Fsa<Pair>, Fsa<Pair>),
    /// Two relations, on whose paths conditions may stand.
    Flagged(Flagged, Flagged),
}

/// Two networks as languages where both are languages, and else as relations. Conditions stay, unless the other network has symbols with
/// the numbers of conditions.
pub fn alike(alloc: Global, a: Network, b: Network) -> Result<Operands, AllocError>
    ensures { IfOk result (AreOperands a b) }
{
    match a {
        Network::Words(first) => words_beside(alloc, first, b),
        Network::Pairs(first) => pairs_beside(alloc, first, b),
        Network::Flagged(first) => flagged_beside(alloc, first, b),
    }
}

/// A language and another network.
fn words_beside(alloc: Global, first: Fsa<Bound<Sym>>, b: Network) -> Result<Operands, AllocError>
    ensures { IfOk result (AreOperands (network.Words first) b) }
{
    match b {
        Network::Words(second) => Ok(Operands::Words(first, second)),
        Network::Pairs(second) => {
            let first = Network::Words(first).into_pairs(alloc)?;
            Ok(Operands::Pairs(first, second))
        }
        Network::Flagged(second) => {
            let first = Network::Words(first).into_pairs(alloc)?;
            plain_and_flagged(alloc, first, second)
        }
    }
}

/// A relation without conditions and another network.
fn pairs_beside(alloc: Global, first: Fsa<Pair>, b: Network) -> Result<Operands, AllocError>
    ensures { IfOk result (AreOperands (network.Pairs first) b) }
{
    match b {
        Network::Words(second) => {
            let second = Network::Words(second).into_pairs(alloc)?;
            Ok(Operands::Pairs(first, second))
        }
        Network::Pairs(second) => Ok(Operands::Pairs(first, second)),
        Network::Flagged(second) => plain_and_flagged(alloc, first, second),
    }
}

/// A relation with conditions and another network.
fn flagged_beside(alloc: Global, first: Flagged, b: Network) -> Result<Operands, AllocError>
    ensures { IfOk result (AreOperands (network.Flagged first) b) }
{
    match b {
        Network::Words(second) => {
            let second = Network::Words(second).into_pairs(alloc)?;
            flagged_and_plain(alloc, first, second)
        }
        Network::Pairs(second) => flagged_and_plain(alloc, first, second),
        Network::Flagged(second) => Ok(Operands::Flagged(first, second)),
    }
}

/// A relation without conditions and one with them.
fn plain_and_flagged(
    alloc: Global,
    first: Fsa<Pair>,
    second: Flagged,
) -> Result<Operands, AllocError>
    ensures { IfOk result (AreOperands (network.Pairs first) (network.Flagged second)) }
{
    if has_no_conditions(&first) {
        let first = Flagged::plain(alloc, first);
        return Ok(Operands::Flagged(first, second));
    }
    let second = second.resolve(alloc)?;
    Ok(Operands::Pairs(first, second))
}

/// A relation with conditions and one without them.
fn flagged_and_plain(
    alloc: Global,
    first: Flagged,
    second: Fsa<Pair>,
) -> Result<Operands, AllocError>
    ensures { IfOk result (AreOperands (network.Flagged first) (network.Pairs second)) }
{
    if has_no_conditions(&second) {
        let second = Flagged::plain(alloc, second);
        return Ok(Operands::Flagged(first, second));
    }
    let first = first.resolve(alloc)?;
    Ok(Operands::Pairs(first, second))
}

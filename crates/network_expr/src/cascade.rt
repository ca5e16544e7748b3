ghost use Rattle.std.specs.Prelude.{IfOk};
ghost use Rattle.word_relations.specs.Relations.{IsComposition};
ghost use Rattle.word_relations.specs.Words.{IsDistinct};
ghost use Rattle.expr_kinds.specs.Kinds.{both};
ghost use Rattle.network_algebra.specs.Networks.{IsFor, IsNetwork, PairsOf, WordsOf, kind_of_network};
ghost use Rattle.network_expr.specs.Cascades.{IsCascade, IsCascadeFor, PairsOfCascade, WordsOfCascade, kind_of_cascade};

use fsm_base::Sym;
use network_algebra::Network;
use network_sets::compose;
use std::alloc::{AllocError, Global};

/// A row of compositions, in two parts: it stands for the composition of the two.
#[derive(Debug, Drop)]
pub struct Cascade {
    /// The first operands, composed.
    pub head: Network,
    /// Those behind them, composed, if there are any.
    pub tail: Option<Network>,
}

impl Cascade {
    /// The row with one more operand, which is composed with the tail where both are small beside the head.
    pub fn then(
        self,
        alloc: Global,
        symbols: &[Sym],
        operand: Network,
    ) -> Result<Cascade, AllocError>
        requires distinct { IsDistinct symbols.now }
        requires first { IsCascade symbols.now self }
        requires second { IsNetwork symbols.now operand }
        ensures letters { IfOk result (IsCascade symbols.now) }
        ensures meaning { IfOk result (IsCascadeFor (both (kind_of_cascade self) (kind_of_network operand)) (λ w. WordsOfCascade self w × WordsOf operand w) (IsComposition (PairsOfCascade self) (PairsOf operand))) }
    {
        let Cascade { head, tail } = self;
        let Some(tail) = tail else {
            return Ok(Cascade {
                head,
                tail: Some(operand),
            });
        };
        if are_small_beside(&head, &tail, &operand) {
            let tail = compose(alloc, symbols, tail, operand)?;
            Ok(Cascade {
                head,
                tail: Some(tail),
            })
        } else {
            let head = compose(alloc, symbols, head, tail)?;
            Ok(Cascade {
                head,
                tail: Some(operand),
            })
        }
    }

    /// The network of the row.
    pub fn join(self, alloc: Global, symbols: &[Sym]) -> Result<Network, AllocError>
        requires distinct { IsDistinct symbols.now }
        requires row { IsCascade symbols.now self }
        ensures letters { IfOk result (IsNetwork symbols.now) }
        ensures meaning { IfOk result (IsFor (kind_of_cascade self) (WordsOfCascade self) (PairsOfCascade self)) }
    {
        let Cascade { head, tail } = self;
        match tail {
            None => Ok(head),
            Some(tail) => compose(alloc, symbols, head, tail),
        }
    }
}

/// Whether the operand is composed with the tail, and not the tail with the head: what that can give, each state of one with the states
/// and edges of the other, is at most as large as the head. So rules behind a large lexicon are composed first, and rules before it from
/// left to right.
fn are_small_beside(head: &Network, tail: &Network, operand: &Network) -> bool {
    let of_tail = states(tail).saturating_mul(size(operand));
    let of_operand = states(operand).saturating_mul(size(tail));
    of_tail.saturating_add(of_operand) <= size(head)
}

/// The number of states.
fn states(network: &Network) -> usize {
    match network {
        Network::Words(words) => words.states(),
        Network::Pairs(pairs) => pairs.states(),
        Network::Flagged(flagged) => flagged.states(),
    }
}

/// The number of states and edges.
fn size(network: &Network) -> usize {
    let edges = match network {
        Network::Words(words) => words.edges().len(),
        Network::Pairs(pairs) => pairs.edges().len(),
        Network::Flagged(flagged) => flagged.net().edges().len(),
    };
    states(network).saturating_add(edges)
}

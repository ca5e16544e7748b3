ghost use Rattle.std.specs.Prelude.{IfOk, List};
ghost use Rattle.fsm_base.specs.declared.letters.Pair.{Pair};
ghost use Rattle.fsm_base.specs.declared.letters.Sym.{Sym};
ghost use Rattle.fst_algebra.specs.Relation.{IsRelated};
ghost use Rattle.flag_diacritics.specs.Tapes.{TapesRelate, UsesPair};
ghost use Rattle.network_algebra.specs.Networks.{IsNetwork, RelatesOnly, UsesSymbols};
ghost use Rattle.network_lexicons.specs.Entries.{IsPairOver};

use crate::small::straightened;
use flag_diacritics::{Tape, resolve, resolve_within};
use fsa::Fsa;
use fsm_base::Pair;
use fst_flagged::Flagged;
use network_algebra::{Network, reduced};
use regex_ast::FlagOp;
use std::alloc::{AllocError, Global};

/// How many steps the resolution of flags may take for each edge. Flags that are tested close behind where they are set take about two;
/// those of stems that endings behind compounds test take more steps than there is memory for.
const STEPS_FOR_AN_EDGE: usize = 4;

/// How many steps it may take at least, so that the flags of each small lexicon are resolved.
const STEPS: usize = 65_536;

/// The network of the tapes whose flags pass. Flags are made states where that takes few steps, and else stay as conditions.
pub fn network_of_tapes(
    alloc: Global,
    tapes: &Fsa<Tape>,
    flags: &[FlagOp],
) -> Result<Network, AllocError>
    ensures letters { IfOk result (λ n. (symbols : List Sym) → ((pair : Pair) → UsesPair tapes.now pair → IsPairOver symbols pair) → IsNetwork symbols n) }
    ensures meaning { IfOk result (RelatesOnly (TapesRelate tapes.now flags.now)) }
{
    let steps = steps_for(tapes.edges().len());
    match resolve_within(alloc, tapes, flags, steps)? {
        Some(resolved) => small_relation(alloc, resolved),
        None => flags_kept(alloc, tapes, flags),
    }
}

/// How many steps the resolution of flags may take for so many edges.
fn steps_for(edges: usize) -> usize {
    edges.saturating_mul(STEPS_FOR_AN_EDGE).max(STEPS)
}

/// The network of what a transducer relates, straightened and reduced.
fn small_relation(alloc: Global, resolved: Fsa<Pair>) -> Result<Network, AllocError>
    ensures letters { IfOk result (λ n. (symbols : List Sym) → UsesSymbols symbols resolved → IsNetwork symbols n) }
    ensures meaning { IfOk result (RelatesOnly (IsRelated resolved)) }
{
    let pairs = straightened(alloc, resolved)?;
    reduced(alloc, &Network::Pairs(pairs))
}

/// The network of the tapes whose flags pass, with these as conditions. Where there are no numbers for all of them, they are made states.
fn flags_kept(alloc: Global, tapes: &Fsa<Tape>, flags: &[FlagOp]) -> Result<Network, AllocError>
    ensures letters { IfOk result (λ n. (symbols : List Sym) → ((pair : Pair) → UsesPair tapes.now pair → IsPairOver symbols pair) → IsNetwork symbols n) }
    ensures meaning { IfOk result (RelatesOnly (TapesRelate tapes.now flags.now)) }
{
    match Flagged::of(alloc, tapes, flags)? {
        Some(flagged) => Ok(Network::Flagged(flagged)),
        None => {
            let resolved = resolve(alloc, tapes, flags)?;
            small_relation(alloc, resolved)
        }
    }
}

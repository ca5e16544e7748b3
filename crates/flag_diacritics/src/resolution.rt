ghost use Rattle.std.specs.Prelude.{◌≡◌, ◌<◌, ◌↔◌, ◌-◌, ◌^◌, List, None, IfOk, IfSome};
ghost use Rattle.word_relations.specs.Relations.{AreSame};
ghost use Rattle.fsm_base.specs.declared.letters.Pair.{Pair};
ghost use Rattle.fsa.specs.Automaton.{UsesLetter};
ghost use Rattle.fsa.specs.Language.{Accepts};
ghost use Rattle.fst_algebra.specs.Relation.{IsRelated};
ghost use Rattle.flag_diacritics.specs.Tapes.{HasPairs, TapesRelate, UsesPair};

use crate::actions::actions_of;
use crate::idle::idle_features;
use crate::search::explore;
use crate::tape::Tape;
use fsa::Fsa;
use fsa_reduce::trim;
use fsm_base::Pair;
use regex_ast::FlagOp;
use std::alloc::{AllocError, Global};

/// The transducer of a network's pairs, its flags resolved: an accepted tape counts where each flag of its upper side
/// passes, from all features neutral, and so does each flag of its lower side by itself. A flag is named by its place
/// in `flags`; a number past their end is no flag. The states are a state of the network with what the features of both
/// sides are there that some later flag tests before they are set again, as far as the start reaches them and a final state
/// is reached.
pub fn resolve(alloc: Global, net: &Fsa<Tape>, flags: &[FlagOp]) -> Result<Fsa<Pair>, AllocError>
    ensures pairs { IfOk result (λ m. (x : Pair) → UsesLetter m x → UsesPair net.now x) }
    ensures language { IfOk result (λ m. (pairs : List Pair) → Accepts m pairs ↔ HasPairs net.now flags.now pairs) }
    ensures relation { IfOk result (λ m. AreSame (IsRelated m) (TapesRelate net.now flags.now)) }
{
    match resolve_within(alloc, net, flags, usize::MAX)? {
        Some(resolved) => Ok(resolved),
        None => unreachable!(),
    }
}

/// The same where it takes at most so many steps: each place that the search finds, a state with what the features are there, is one, and so
/// is each edge between two of them. None where it takes more.
pub fn resolve_within(
    alloc: Global,
    net: &Fsa<Tape>,
    flags: &[FlagOp],
    steps: usize,
) -> Result<Option<Fsa<Pair>>, AllocError>
    ensures whole { IfOk result (λ found. found ≡ None → steps < 2 ^ 64 - 1) }
    ensures pairs { IfOk result (λ found. IfSome found (λ m. (x : Pair) → UsesLetter m x → UsesPair net.now x)) }
    ensures language { IfOk result (λ found. IfSome found (λ m. (pairs : List Pair) → Accepts m pairs ↔ HasPairs net.now flags.now pairs)) }
    ensures relation { IfOk result (λ found. IfSome found (λ m. AreSame (IsRelated m) (TapesRelate net.now flags.now))) }
{
    let actions = actions_of(alloc, flags)?;
    let idle = idle_features(alloc, net, &actions)?;
    let Some(built) = explore(alloc, net, &actions, &idle, steps)? else {
        return Ok(None);
    };
    let m = Fsa::of(built.finals, built.edges);
    Ok(Some(trim(alloc, &m)?))
}

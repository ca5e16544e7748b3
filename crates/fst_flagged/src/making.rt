ghost use Rattle.std.specs.Prelude.{◌≡◌, ◌+◌, ◌<◌, ◌≤◌, IfOk, IfSome, IsTrue, length};
ghost use Rattle.std.specs.List.{list_all};
ghost use Rattle.word_relations.specs.Relations.{AreSame};
ghost use Rattle.fsm_base.specs.declared.letters.Pair.{Pair};
ghost use Rattle.fsm_base.specs.declared.letters.Sym.{Sym};
ghost use Rattle.fst_algebra.specs.Relation.{IsRelated};
ghost use Rattle.fst_algebra.specs.Relations.{UsesLower, UsesUpper};
ghost use Rattle.flag_diacritics.specs.Tapes.{TapesRelate, UsesPair};
ghost use Rattle.fst_flagged.specs.Conditions.{first};
ghost use Rattle.fst_flagged.specs.Flagged.{FlaggedRelates, HasNoConditions};
ghost use Rattle.fst_flagged.specs.Images.{is_plain, is_plain_tape, most};

use crate::condition::{FIRST, conditions_for};
use crate::flagged::Flagged;
use crate::images::{AsPairs, is_plain};
use flag_diacritics::Tape;
use fsa::{Edge, Fsa};
use fsm_base::Pair;
use fst_algebra::substituted;
use regex_ast::FlagOp;
use std::alloc::{AllocError, Global};

impl Flagged {
    /// The relation of the tapes whose flags pass. Each flag stays, as a condition of the run of its side. None where a symbol of the tapes
    /// has the number of a condition, or where there are more flags than numbers.
    pub fn of(
        alloc: Global,
        tapes: &Fsa<Tape>,
        flags: &[FlagOp],
    ) -> Result<Option<Flagged>, AllocError>
        ensures upper { IfOk result (λ kept. IfSome kept (λ f. (x : Sym) → UsesUpper f.net x → x.0 < first → (pair : Pair) × UsesPair tapes.now pair × (pair.up ≡ Some x))) }
        ensures lower { IfOk result (λ kept. IfSome kept (λ f. (x : Sym) → UsesLower f.net x → (pair : Pair) × UsesPair tapes.now pair × (pair.low ≡ Some x))) }
        ensures relation { IfOk result (λ kept. IfSome kept (λ f. AreSame (FlaggedRelates f) (TapesRelate tapes.now flags.now))) }
    {
        let Some(count) = count_of(flags) else {
            return Ok(None);
        };
        let plain = tapes_are_plain(tapes.edges());
        if !plain {
            return Ok(None);
        }
        let conditions = conditions_for(alloc, flags)?;
        let as_pairs = AsPairs {
            count,
            lower: FIRST + count,
        };
        let net = substituted(alloc, tapes, &as_pairs)?;
        Ok(Some(Flagged { net, conditions }))
    }

    /// A transducer without conditions, none of whose symbols has the number of one.
    pub fn plain(alloc: Global, net: Fsa<Pair>) -> Flagged
        requires { HasNoConditions net }
        ensures net { result.net ≡ net }
        ensures relation { AreSame (FlaggedRelates result) (IsRelated net) }
    {
        Flagged {
            net,
            conditions: Vec::new(alloc),
        }
    }
}

/// The most flags whose conditions on both sides have numbers.
const MOST_FLAGS: u32 = (u32::MAX - FIRST) / 2;

/// How many flags there are, where there are numbers for their conditions.
fn count_of(flags: &[FlagOp]) -> Option<u32>
    ensures { IfSome result (λ count. (count ≡ length flags.now) × (first + (count + count) ≤ most)) }
{
    let count = u32::try_from(flags.len()).ok()?;
    if count > MOST_FLAGS {
        return None;
    }
    Some(count)
}

/// Whether no symbol of a tape has the number of a condition.
fn tapes_are_plain(edges: &[Edge<Tape>]) -> bool
    ensures { result ≡ list_all (λ edge. is_plain_tape edge.letter) edges.now }
{
    edges.iter().all(|edge| is_plain_tape(edge.letter))
}

/// Whether a letter of tapes is a flag, or a pair without conditions.
fn is_plain_tape(letter: Option<Tape>) -> bool
    ensures { result ≡ is_plain_tape letter }
{
    match letter {
        Some(Tape::Pair(pair)) => is_plain(Some(pair)),
        _ => true,
    }
}

/// Whether no symbol of the transducer has the number of a condition.
pub fn has_no_conditions(net: &Fsa<Pair>) -> bool
    ensures { IsTrue result → HasNoConditions net.now }
{
    pairs_are_plain(net.edges())
}

/// Whether no symbol of a pair has the number of a condition.
fn pairs_are_plain(edges: &[Edge<Pair>]) -> bool
    ensures { result ≡ list_all (λ edge. is_plain edge.letter) edges.now }
{
    edges.iter().all(|edge| is_plain(edge.letter))
}

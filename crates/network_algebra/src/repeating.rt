ghost use Rattle.std.specs.Prelude.{◌↔◌, IfOk, List};
ghost use Rattle.fsm_base.specs.declared.letters.Sym.{Sym};
ghost use Rattle.word_relations.specs.Relations.{IsRepetitionOfPairs};
ghost use Rattle.fsa.specs.Automaton.{UsesLetter};
ghost use Rattle.fsa.specs.Language.{Accepts};
ghost use Rattle.expr_meaning.specs.Operators.{IsRepetitionOf, Just};
ghost use Rattle.network_algebra.specs.Networks.{AtMost, Counts, IsFor, IsNetwork, PairsOf, WordsOf, kind_of_network};

use crate::network::Network;
use crate::optional::split_off_empty;
use crate::rational::{concat, star, union};
use crate::words::word;
use fsa::Fsa;
use fsm_base::Letter;
use std::alloc::{AllocError, Global};

/// How often an operand stands.
#[derive(Clone, Copy, Debug, PartialEq, Eq)]
pub enum Times {
    /// Any number of times.
    Any,
    /// Once or more.
    OneOrMore,
    /// Just so often.
    Exactly(u32),
}

/// What a network repeated so often is. Conditions are made states.
pub fn repeat(alloc: Global, network: Network, times: Times) -> Result<Network, AllocError>
    ensures letters { IfOk result (λ n. (symbols : List Sym) → IsNetwork symbols network → IsNetwork symbols n) }
    ensures meaning { IfOk result (IsFor (kind_of_network network) (IsRepetitionOf (Counts times) (WordsOf network)) (IsRepetitionOfPairs (Counts times) (PairsOf network))) }
{
    match network {
        Network::Words(m) => Ok(Network::Words(repeat_automaton(alloc, &m, times)?)),
        Network::Pairs(m) => Ok(Network::Pairs(repeat_automaton(alloc, &m, times)?)),
        Network::Flagged(f) => {
            let m = f.resolve(alloc)?;
            Ok(Network::Pairs(repeat_automaton(alloc, &m, times)?))
        }
    }
}

/// The automaton of so many words of `m`, joined.
fn repeat_automaton<L: Letter>(
    alloc: Global,
    m: &Fsa<L>,
    times: Times,
) -> Result<Fsa<L>, AllocError>
    ensures letters { IfOk result (λ p. (x : L) → UsesLetter p x → UsesLetter m.now x) }
    ensures language { IfOk result (λ p. (w : List L) → Accepts p w ↔ IsRepetitionOf (Counts times) (Accepts m.now) w) }
{
    match times {
        Times::Any => star(alloc, m),
        Times::OneOrMore => concat(alloc, m, &star(alloc, m)?),
        Times::Exactly(count) => power(alloc, m, count),
    }
}

/// The automaton of just so many words of `m`, joined. Where `m` accepts the empty word, so many words are at most so
/// many others, which stays small where their lengths are told apart once.
fn power<L: Letter>(alloc: Global, m: &Fsa<L>, count: u32) -> Result<Fsa<L>, AllocError>
    ensures letters { IfOk result (λ p. (x : L) → UsesLetter p x → UsesLetter m.now x) }
    ensures language { IfOk result (λ p. (w : List L) → Accepts p w ↔ IsRepetitionOf (Just count) (Accepts m.now) w) }
{
    match split_off_empty(alloc, m)? {
        Some(rest) => at_most(alloc, &rest, count),
        None => exactly(alloc, m, count),
    }
}

/// The automaton of just so many words of `m`, joined. Takes time in proportion to its size, since it joins two
/// halves.
fn exactly<L: Letter>(alloc: Global, m: &Fsa<L>, count: u32) -> Result<Fsa<L>, AllocError>
    ensures letters { IfOk result (λ p. (x : L) → UsesLetter p x → UsesLetter m.now x) }
    ensures language { IfOk result (λ p. (w : List L) → Accepts p w ↔ IsRepetitionOf (Just count) (Accepts m.now) w) }
{
    if count == 0 {
        return word(alloc, &[]);
    }
    let half = exactly(alloc, m, count / 2)?;
    let twice = concat(alloc, &half, &half)?;
    if count % 2 == 0 {
        return Ok(twice);
    }
    concat(alloc, &twice, m)
}

/// The automaton of at most so many words of `m`, joined: at most half as many, or the other half and then at most
/// half as many. Takes time in proportion to its size.
fn at_most<L: Letter>(alloc: Global, m: &Fsa<L>, count: u32) -> Result<Fsa<L>, AllocError>
    ensures letters { IfOk result (λ p. (x : L) → UsesLetter p x → UsesLetter m.now x) }
    ensures language { IfOk result (λ p. (w : List L) → Accepts p w ↔ IsRepetitionOf (AtMost count) (Accepts m.now) w) }
{
    if count == 0 {
        return word(alloc, &[]);
    }
    let fewer = at_most(alloc, m, count / 2)?;
    let half = exactly(alloc, m, count - count / 2)?;
    let more = concat(alloc, &half, &fewer)?;
    union(alloc, &fewer, &more)
}

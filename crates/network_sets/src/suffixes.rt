ghost use Rattle.std.specs.Prelude.{IfOk, IsTrue, List};
ghost use Rattle.fsm_base.specs.declared.letters.Sym.{Sym};
ghost use Rattle.expr_kinds.specs.Kinds.{kind_behind, with_suffixes};
ghost use Rattle.expr_meaning.specs.Operators.{AreSuffixed, IsSuffixed, RelateSuffixed, RelatesSuffixed};
ghost use Rattle.network_sets.specs.Suffixes.{MakesNothingNew};
ghost use Rattle.network_algebra.specs.Networks.{IsFor, IsNetwork, PairsOf, WordsOf, kind_of_network};

use network_algebra::{Network, Times, inverse, lower, repeat, reverse, upper};
use regex_ast::Suffix;
use std::alloc::{AllocError, Global};

/// A network with a suffix.
fn apply_suffix(alloc: Global, network: Network, suffix: Suffix) -> Result<Network, AllocError>
    ensures letters { IfOk result (λ n. (symbols : List Sym) → IsNetwork symbols network → IsNetwork symbols n) }
    ensures meaning { IfOk result (IsFor (kind_behind (kind_of_network network) suffix) (IsSuffixed suffix (WordsOf network) (PairsOf network)) (RelatesSuffixed suffix (PairsOf network))) }
{
    match suffix {
        Suffix::Star => repeat(alloc, network, Times::Any),
        Suffix::Plus => repeat(alloc, network, Times::OneOrMore),
        Suffix::Power(count) => repeat(alloc, network, Times::Exactly(count)),
        Suffix::Upper => upper(alloc, network),
        Suffix::Lower => lower(alloc, network),
        Suffix::Inverse => inverse(alloc, network),
        Suffix::Reverse => reverse(alloc, network),
    }
}

/// Whether a suffix makes nothing new behind the last one that did.
fn makes_nothing_new(last: Option<Suffix>, suffix: Suffix) -> bool
    ensures { IsTrue result → MakesNothingNew last suffix }
{
    matches!(
        (last, suffix),
        (_, Suffix::Power(1))
            | (Some(Suffix::Star), Suffix::Star | Suffix::Plus)
            | (Some(Suffix::Plus), Suffix::Plus)
            | (
                Some(Suffix::Upper | Suffix::Lower),
                Suffix::Upper | Suffix::Lower
            )
    )
}

/// A network with suffixes, from left to right.
pub fn apply_suffixes(
    alloc: Global,
    mut network: Network,
    suffixes: &[Suffix],
) -> Result<Network, AllocError>
    ensures letters { IfOk result (λ n. (symbols : List Sym) → IsNetwork symbols network → IsNetwork symbols n) }
    ensures meaning { IfOk result (IsFor (with_suffixes (kind_of_network network) suffixes.now) (AreSuffixed suffixes.now (WordsOf network) (PairsOf network)) (RelateSuffixed suffixes.now (PairsOf network))) }
{
    let mut last = None;
    'suffixes: for suffix in suffixes {
        if makes_nothing_new(last, *suffix) {
            continue;
        }
        network = apply_suffix(alloc, network, *suffix)?;
        last = Some(*suffix);
    }
    Ok(network)
}

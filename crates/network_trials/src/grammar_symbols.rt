ghost use Rattle.std.specs.Prelude.{Contains, IfOk, IsTrue};
ghost use Rattle.fsm_base.specs.declared.letters.Pair.{Pair};
ghost use Rattle.word_relations.specs.Words.{IsDistinct};
ghost use Rattle.network_trials.specs.Pairs.{IsPairOver};

use crate::sides::is_side;
use crate::symbols::Symbols;
use fsa::place_of;
use fsm_base::{Alphabet, Pair};
use std::alloc::{AllocError, Global};

/// The pair of a text `X` or `X:Y`. A side that is no symbol is nothing.
pub fn pair_of(symbols: &Symbols, text: &str) -> Pair {
    let (up, low) = text.split_once(':').unwrap_or((text, text));
    Pair {
        up: symbols.symbol_of(up),
        low: symbols.symbol_of(low),
    }
}

/// Whether the symbols of a pair are of the alphabet.
fn is_over(alphabet: &Alphabet, pair: Pair) -> bool
    ensures { IsTrue result → IsPairOver alphabet.now pair }
{
    is_side(alphabet, pair.up) && is_side(alphabet, pair.low)
}

/// Whether a pair isn't among these.
fn is_new(pairs: &[Pair], pair: Pair) -> bool
    ensures { IsTrue result → ¬ Contains pairs.now pair }
{
    place_of(pairs, pair).is_none()
}

/// Whether a pair is over the alphabet and not among these.
fn is_wanted(alphabet: &Alphabet, pairs: &[Pair], pair: Pair) -> bool
    ensures over { IsTrue result → IsPairOver alphabet.now pair }
    ensures new { IsTrue result → ¬ Contains pairs.now pair }
{
    is_over(alphabet, pair) && is_new(pairs, pair)
}

/// The different pairs of a text, over the alphabet of these symbols.
pub fn pairs_of(alloc: Global, symbols: &Symbols, text: &str) -> Result<Vec<Pair>, AllocError>
    ensures distinct { IfOk result (λ pairs. IsDistinct pairs.items) }
    ensures over { IfOk result (λ pairs. (x : Pair) → Contains pairs.items x → IsPairOver symbols.now.alphabet x) }
{
    let mut pairs = Vec::new(alloc);
    'pairs: for text in text.split_ascii_whitespace() {
        let pair = pair_of(symbols, text);
        if is_wanted(&symbols.alphabet, &pairs, pair) {
            pairs.push(pair)?;
        }
    }
    Ok(pairs)
}

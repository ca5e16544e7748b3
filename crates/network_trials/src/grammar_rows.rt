ghost use Rattle.std.specs.Prelude.{IfOk};
ghost use Rattle.lookup.specs.Answering.{IsOverAlphabet};

use crate::answers::{answer_of, told};
use crate::grammar_rules::rules_of;
use crate::grammar_symbols::pairs_of;
use crate::symbols::{Symbols, symbols_of};
use lookup::Net;
use std::alloc::{AllocError, Global};
use two_level::grammar;

/// The symbols.
const SYMBOLS: &str = "a b c d e k m n p t N";

/// The answer to a row, or None where it is no such row.
pub fn said_of_row(alloc: Global, row: &str) -> Result<Option<String>, AllocError> {
    let (way, value) = row.split_once(' ').unwrap_or((row, ""));
    let (word, value) = value.split_once('|').unwrap_or((value, ""));
    let (pairs, rules) = value.split_once('|').unwrap_or((value, ""));
    let symbols = symbols_of(alloc, SYMBOLS)?;
    let net = network(alloc, &symbols, pairs, rules)?;
    match answer_of(alloc, &net, &symbols, way, word)? {
        Some(answer) => Ok(Some(told(alloc, &answer)?)),
        None => Ok(None),
    }
}

/// The network of a grammar: its feasible pairs, and its rules.
fn network(alloc: Global, symbols: &Symbols, pairs: &str, rules: &str) -> Result<Net, AllocError>
    ensures { IfOk result (IsOverAlphabet symbols.now.alphabet) }
{
    let pairs = pairs_of(alloc, symbols, pairs)?;
    let rules = rules_of(alloc, symbols, &pairs, rules)?;
    let fsa = grammar(alloc, &pairs, &rules)?;
    let net = Net::of(alloc, &fsa)?;
    Ok(net)
}

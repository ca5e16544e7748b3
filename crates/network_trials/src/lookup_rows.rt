ghost use Rattle.std.specs.Prelude.{IfOk, OnOk};
ghost use Rattle.lookup.specs.Answering.{HasSymbolsOf, IsOverAlphabet};

use crate::answers::{answer_of, told};
use crate::sides::is_side;
use crate::symbols::{Symbols, symbols_of};
use fsa::{Edge, Fsa};
use fsm_base::{Alphabet, Pair, Sym};
use lookup::{Answer, Net};
use std::alloc::{AllocError, Global};

/// The most states of a network.
const MOST_STATES: usize = 1000;

/// An edge of a network: the state that it leaves, its upper and its lower symbol, and the state that it enters.
type Row = (usize, Option<Sym>, Option<Sym>, usize);

/// The symbols.
const SYMBOLS: &str = "a b ab é";

/// The most texts that are told.
const MOST_TOLD: usize = 10;

/// The answer to a row, or None where it is no such row.
pub fn said_of_row(alloc: Global, row: &str) -> Result<Option<String>, AllocError> {
    let (way, value) = row.split_once(' ').unwrap_or((row, ""));
    let (word, edges) = value.split_once('|').unwrap_or((value, ""));
    let symbols = symbols_of(alloc, SYMBOLS)?;
    let net = network(alloc, &symbols, edges)?;
    match answer_of(alloc, &net, &symbols, way, word)? {
        Some(answer) => Ok(Some(counted(alloc, &answer)?)),
        None => Ok(None),
    }
}

/// The texts of an answer, or how many they are where there is none or are many.
fn counted(alloc: Global, answer: &Answer) -> Result<String, AllocError> {
    match answer {
        Answer::Strings(texts) if texts.is_empty() || texts.len() > MOST_TOLD => {
            format!(in alloc; "{} texts", texts.len())
        }
        _ => told(alloc, answer),
    }
}

/// The edge of a row, or None where it has another form.
fn row_of(symbols: &Symbols, row: &str) -> Option<Row> {
    let (from, rest) = row.trim_ascii().split_once(' ')?;
    let (sides, to) = rest.split_once(' ')?;
    let (up, low) = sides.split_once(':')?;
    let from = from.parse::<usize>().ok()?;
    let to = to.parse::<usize>().ok()?;
    Some((from, symbols.symbol_of(up), symbols.symbol_of(low), to))
}

/// The greatest state of these edges.
fn last_of(symbols: &Symbols, rows: &str) -> usize {
    let mut last = 0;
    for row in rows.split(',') {
        if let Some((from, _, _, to)) = row_of(symbols, row) {
            last = from.max(to).max(last);
        }
    }
    last.min(MOST_STATES)
}

/// Adds an edge. One of other symbols or states is left out.
fn add_row(fsa: &mut Fsa<Pair>, alphabet: &Alphabet, row: Row) -> Result<(), AllocError>
    ensures { OnOk result (HasSymbolsOf alphabet.now fsa.old → HasSymbolsOf alphabet.now fsa.new) }
{
    let (from, up, low, to) = row;
    if from.max(to) >= fsa.states() || !is_side(alphabet, up) || !is_side(alphabet, low) {
        return Ok(());
    }
    let letter = Some(Pair { up, low });
    fsa.add_edge(Edge { from, letter, to })?;
    Ok(())
}

/// The network of these edges, whose last state is final.
fn network(alloc: Global, symbols: &Symbols, rows: &str) -> Result<Net, AllocError>
    ensures { IfOk result (IsOverAlphabet symbols.now.alphabet) }
{
    let mut finals = vec![in alloc; false; last_of(symbols, rows)]?;
    finals.push(true)?;
    let mut fsa = Fsa::of_states(alloc, finals);
    'rows: for row in rows.split(',') {
        if let Some(row) = row_of(symbols, row) {
            add_row(&mut fsa, &symbols.alphabet, row)?;
        }
    }
    let net = Net::of(alloc, &fsa)?;
    Ok(net)
}

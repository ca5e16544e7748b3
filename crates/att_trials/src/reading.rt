use att_text::{AttError, read_att};
use fsa::Fsa;
use fsm_base::{Pair, Sym, SymbolTable};
use std::alloc::{AllocError, Global};

/// The most bytes of a text that is read.
const MOST_READ: usize = 1_000_000;

/// The text of a side's symbol, or `0` where there is none.
fn text_of(table: &SymbolTable, side: Option<Sym>) -> &str {
    match side {
        Some(symbol) => table.text_of(symbol).unwrap_or("none"),
        None => "0",
    }
}

/// A network by its states, its edges and its final states.
fn said_of_network(
    alloc: Global,
    net: &Fsa<Pair>,
    table: &SymbolTable,
) -> Result<String, AllocError> {
    let mut said = format!(in alloc; "{} states", net.states())?;
    for edge in net.edges() {
        let (up, low) = match edge.letter {
            Some(pair) => (pair.up, pair.low),
            None => (None, None),
        };
        let up = text_of(table, up);
        let low = text_of(table, low);
        let edge = format!(in alloc; ", {} {up}:{low} {}", edge.from, edge.to)?;
        said.push_str(edge.as_str())?;
    }
    for state in 0..net.states() {
        if net.is_final(state) {
            said.push_str(format!(in alloc; ", final {state}")?.as_str())?;
        }
    }
    Ok(said)
}

/// The first fault of a text, unless there was no memory.
fn said_of_error(alloc: Global, error: AttError) -> Result<String, AllocError> {
    match error {
        AttError::Refused { line, why } => format!(in alloc; "line {line}: {why:?}"),
        AttError::Memory(refused) => Err(refused),
    }
}

/// The network of a text, or its first fault.
pub fn said_of_text(alloc: Global, bytes: &[u8]) -> Result<String, AllocError> {
    let mut table = SymbolTable::new(alloc);
    let text = match std::str::from_utf8(bytes) {
        Ok(text) => text,
        Err(_) => return String::from_str(alloc, "not UTF-8"),
    };
    if text.len() > MOST_READ {
        return String::from_str(alloc, "too long");
    }
    match read_att(alloc, text, &mut table) {
        Ok(net) => said_of_network(alloc, &net, &table),
        Err(error) => said_of_error(alloc, error),
    }
}

/// A text with so many lines, each with a symbol of its own, and with one more whose symbol is that of the first.
fn text_of_symbols(alloc: Global, count: usize, again: bool) -> Result<String, AllocError> {
    let mut text = String::new(alloc);
    for number in 0..count {
        text.push_str(format!(in alloc; "0\t0\ts{number}\n")?.as_str())?;
    }
    if again {
        text.push_str("0\t0\ts0\n")?;
    }
    Ok(text)
}

/// The number of edges of the network of such a text, or its first fault.
pub fn said_of_symbols(alloc: Global, count: &str, again: bool) -> Result<String, AllocError> {
    let mut table = SymbolTable::new(alloc);
    let text = text_of_symbols(alloc, count.parse::<usize>().unwrap_or(0), again)?;
    let text = text.as_str();
    if text.len() > MOST_READ {
        return String::from_str(alloc, "too long");
    }
    match read_att(alloc, text, &mut table) {
        Ok(net) => format!(in alloc; "{} edges, {} symbols", net.edges().len(), table.len()),
        Err(error) => said_of_error(alloc, error),
    }
}

use crate::MOST_READ;
use fsm_base::{Alphabet, Sym, SymbolTable, Text, TextError, TokensError, nfc, normal};
use row_texts::shown;
use std::alloc::{AllocError, Global};

/// The text of a source, or its first fault.
pub fn said_of_source(alloc: Global, bytes: &[u8]) -> Result<String, AllocError> {
    if bytes.len() > MOST_READ {
        return String::from_str(alloc, "too long");
    }
    match normal(alloc, bytes) {
        Ok(text) => shown(alloc, text.as_str().as_bytes()),
        Err(TextError::NotUtf8 { line }) => format!(in alloc; "not UTF-8 in line {line}"),
        Err(TextError::Control { line }) => {
            format!(in alloc; "a control character in line {line}")
        }
        Err(TextError::Memory(error)) => Err(error),
    }
}

/// The text in Normalization Form C.
pub fn said_of_form(alloc: Global, text: &str) -> Result<String, AllocError> {
    shown(alloc, nfc(alloc, text)?.as_str().as_bytes())
}

/// How the two texts compare that the first space separates.
pub fn said_of_order(alloc: Global, text: &str) -> Result<String, AllocError> {
    let (a, b) = text.split_once(' ').unwrap_or((text, ""));
    let a = Text::of(alloc, a)?;
    let b = Text::from_string(String::from_str(alloc, b)?)?;
    format!(in alloc;
        "{:?}, {}",
        a.cmp(&b),
        if a == b { "the same" } else { "not the same" }
    )
}

/// The numbers of the symbols with these texts, in one table; how many it has; and the text of the second, before the
/// table is cut to its first symbol and after.
pub fn said_of_symbols(alloc: Global, words: &str) -> Result<String, AllocError> {
    let mut table = SymbolTable::new(alloc);
    let mut said = String::new(alloc);
    for word in words.split(' ') {
        if !word.is_empty() && table.len() < MOST_READ {
            add_symbol(alloc, &mut said, table.intern(word)?)?;
        }
    }
    said.push_str(format!(in alloc; "of {}; ", table.len())?.as_str())?;
    said.push_str(second_of(&table))?;
    table.keep(1);
    said.push_str(", then ")?;
    said.push_str(second_of(&table))?;
    Ok(said)
}

/// The text of the second symbol of a table.
fn second_of(table: &SymbolTable) -> &str {
    table.text_of(Sym(1)).unwrap_or("none")
}

/// Adds a symbol's number.
fn add_symbol(alloc: Global, said: &mut String, symbol: Sym) -> Result<(), AllocError> {
    said.push_str(format!(in alloc; "{} ", symbol.0)?.as_str())
}

/// The alphabet of `a` and `ab`.
fn short_alphabet(alloc: Global) -> Result<Alphabet, AllocError> {
    let mut table = SymbolTable::new(alloc);
    let a = table.intern("a")?;
    let ab = table.intern("ab")?;
    Alphabet::of(alloc, &table, &[a, ab])
}

/// The symbols into which a text is cut, and their texts joined, or the first place without a symbol.
pub fn said_of_cut(alloc: Global, text: &str) -> Result<String, AllocError> {
    if text.len() > MOST_READ {
        return String::from_str(alloc, "too long");
    }
    let alphabet = short_alphabet(alloc)?;
    match alphabet.tokens(alloc, text) {
        Ok(word) => said_of_word(alloc, &word, &alphabet.text(alloc, &word)?),
        Err(TokensError::NoSymbol { at }) => format!(in alloc; "no symbol at {at}"),
        Err(TokensError::Memory(error)) => Err(error),
    }
}

/// The numbers of a word's symbols, and their texts joined.
fn said_of_word(alloc: Global, word: &[Sym], joined: &Text) -> Result<String, AllocError> {
    let mut said = String::new(alloc);
    for symbol in word {
        add_symbol(alloc, &mut said, *symbol)?;
    }
    said.push_str("joined to ")?;
    said.push_str(joined.as_str())?;
    Ok(said)
}

ghost use Rattle.lookup.specs.Answering.{IsOverAlphabet};

use crate::answers::{add_line, answer_of, or_zero, told};
use crate::replace_texts::network;
use crate::symbols::{Symbols, symbols_of};
use fsm_base::Sym;
use lookup::{Net, down};
use replace_marks::marks_of;
use std::alloc::{AllocError, Global};

/// The answers to a row, a line for each.
pub fn said_of_row(alloc: Global, row: &str) -> Result<String, AllocError> {
    let (symbols, rest) = row.split_once(';').unwrap_or((row, ""));
    let (rules, looks) = rest.split_once(';').unwrap_or((rest, ""));
    let symbols = symbols_of(alloc, symbols)?;
    let net = network(alloc, &symbols, rules)?;
    let mut said = String::new(alloc);
    'looks: for look in looks.split(',') {
        add_answers(alloc, &mut said, &net, &symbols, look)?;
    }
    Ok(said)
}

/// Adds the answers to a look, a line for each.
fn add_answers(
    alloc: Global,
    said: &mut String,
    net: &Net,
    symbols: &Symbols,
    look: &str,
) -> Result<(), AllocError>
    requires { IsOverAlphabet symbols.now.alphabet net.now }
{
    let look = look.trim_ascii();
    let (way, rest) = look.split_once(' ').unwrap_or((look, ""));
    match way {
        "all" => add_all(alloc, said, net, symbols, rest.parse::<u32>().unwrap_or(0)),
        "marks" => add_count(alloc, said, symbols, rest.parse::<u32>().unwrap_or(0)),
        _ => add_answer(alloc, said, net, symbols, way, rest),
    }
}

/// Adds a line of an answer to a word.
fn add_answer(
    alloc: Global,
    said: &mut String,
    net: &Net,
    symbols: &Symbols,
    way: &str,
    texts: &str,
) -> Result<(), AllocError>
    requires { IsOverAlphabet symbols.now.alphabet net.now }
{
    match answer_of(alloc, net, symbols, way, texts)? {
        Some(answer) => add_line(said, told(alloc, &answer)?.as_str()),
        None => Ok(()),
    }
}

/// Adds a line for each word of at most so many symbols that isn't just related to itself.
fn add_all(
    alloc: Global,
    said: &mut String,
    net: &Net,
    symbols: &Symbols,
    most: u32,
) -> Result<(), AllocError>
    requires { IsOverAlphabet symbols.now.alphabet net.now }
{
    let mut words = Vec::new(alloc);
    words.push(Vec::new(alloc))?;
    'lengths: for _ in 0..most {
        'words: for word in &words {
            add_word(alloc, said, net, symbols, word)?;
        }
        words = longer(alloc, &words, symbols.alphabet.symbols())?;
    }
    'last: for word in &words {
        add_word(alloc, said, net, symbols, word)?;
    }
    Ok(())
}

/// Adds how many marks there are of the symbols and so many mappings.
fn add_count(
    alloc: Global,
    said: &mut String,
    symbols: &Symbols,
    maps: u32,
) -> Result<(), AllocError> {
    let marks = marks_of(alloc, symbols.alphabet.symbols(), maps)?;
    add_line(said, format!(in alloc; "{} marks", marks.len())?.as_str())
}

/// The words, each with one more symbol.
fn longer(alloc: Global, words: &[Vec<Sym>], all: &[Sym]) -> Result<Vec<Vec<Sym>>, AllocError> {
    let mut longer = Vec::new(alloc);
    for word in words {
        for symbol in all {
            let mut next = Vec::from_slice(alloc, word)?;
            next.push(*symbol)?;
            longer.push(next)?;
        }
    }
    Ok(longer)
}

/// Adds a line for a word and its lower words, where these aren't just the word.
fn add_word(
    alloc: Global,
    said: &mut String,
    net: &Net,
    symbols: &Symbols,
    word: &[Sym],
) -> Result<(), AllocError>
    requires { IsOverAlphabet symbols.now.alphabet net.now }
{
    let text = text_of(alloc, symbols, word)?;
    let found = told(alloc, &down(alloc, net, &symbols.alphabet, word)?)?;
    if found.as_str() == text.as_str() {
        return Ok(());
    }
    let line = format!(in alloc; "{}: {}", text.as_str(), found.as_str())?;
    add_line(said, line.as_str())
}

/// The text of a word, the empty one as 0.
fn text_of(alloc: Global, symbols: &Symbols, word: &[Sym]) -> Result<String, AllocError> {
    let mut text = String::new(alloc);
    for symbol in word {
        text.push_str(symbols.text_of(*symbol))?;
    }
    String::from_str(alloc, or_zero(text.as_str()))
}

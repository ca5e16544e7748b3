use crate::MOST_READ;
use regex_ast::{Define, Raw, ReadError};
use regex_reader::{read_expr, read_xfst};
use std::alloc::{AllocError, Global};

/// The most bytes that are said whole.
const MOST_SAID: usize = 400;

/// How many characters are said where there are more bytes.
const FIRST_SAID: usize = 100;

/// The line in which an entry stands.
const ENTRY_LINE: u32 = 7;

/// What is said of a text that is too long to be read.
const TOO_LONG: &str = "too long";

/// What is said of definitions: their trees, with names and lines.
fn said_of_definitions(alloc: Global, defines: &[Define<Raw>]) -> Result<String, AllocError> {
    if defines.is_empty() {
        return String::from_str(alloc, "no definition");
    }
    let mut said = String::new(alloc);
    'defines: for define in defines {
        let (line, name) = (define.line, define.name.as_str());
        let one = format!(in alloc; "{line} {name} = {:?};", define.expr)?;
        said.push_str(one.as_str())?;
    }
    cut(alloc, said)
}

/// What is said of a fault, unless there was no memory.
fn said_of_fault(alloc: Global, error: ReadError) -> Result<String, AllocError> {
    match error {
        ReadError::Fault { line, why } => format!(in alloc; "{line} {why:?}"),
        ReadError::Memory(error) => Err(error),
    }
}

/// What is said, or its beginning.
fn cut(alloc: Global, said: String) -> Result<String, AllocError> {
    if said.len() <= MOST_SAID {
        return Ok(said);
    }
    let mut begin = String::new(alloc);
    'characters: for character in said.as_str().chars().take(FIRST_SAID) {
        begin.push(character)?;
    }
    begin.push_str("..")?;
    Ok(begin)
}

/// What a text of definitions says: each with its line, its name and its tree, or the line and the reason of its fault.
/// Where that is long, its first 100 characters.
pub fn said_of_text(alloc: Global, text: &str) -> Result<String, AllocError> {
    if text.len() > MOST_READ {
        return String::from_str(alloc, TOO_LONG);
    }
    match read_xfst(alloc, text) {
        Ok(defines) => said_of_definitions(alloc, &defines),
        Err(error) => said_of_fault(alloc, error),
    }
}

/// What an expression says that stands in an entry: its tree, or the line and the reason of its fault.
pub fn said_of_entry(alloc: Global, text: &str) -> Result<String, AllocError> {
    if text.len() > MOST_READ {
        return String::from_str(alloc, TOO_LONG);
    }
    match read_expr(alloc, text, ENTRY_LINE) {
        Ok(expr) => cut(alloc, format!(in alloc; "{expr:?}")?),
        Err(error) => said_of_fault(alloc, error),
    }
}

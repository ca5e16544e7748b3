use crate::MOST_READ;
use crate::atoms::said_of_atom;
use crate::endings::add_ending;
use row_texts::undone;
use std::alloc::{AllocError, Global};
use twolc_tokens::{Token, tokens};

/// What came of a row, or None where it is no such row.
pub fn said_of_row(alloc: Global, field: &str, value: &str) -> Result<Option<String>, AllocError> {
    match field {
        "atom" => Ok(Some(said_of_atom(alloc, value)?)),
        "tokens" => Ok(Some(said_of_bytes(alloc, &undone(alloc, value)?)?)),
        _ => Ok(None),
    }
}

/// The tokens of the text of these bytes.
fn said_of_bytes(alloc: Global, bytes: &[u8]) -> Result<String, AllocError> {
    said_of_tokens(alloc, std::str::from_utf8(bytes).unwrap_or(""))
}

/// The tokens of a text.
fn said_of_tokens(alloc: Global, text: &str) -> Result<String, AllocError> {
    if text.len() > MOST_READ {
        return String::from_str(alloc, "too long");
    }
    let found = tokens(alloc, text)?;
    let mut said = String::new(alloc);
    for placed in found.tokens.as_slice() {
        let token = said_of_token(alloc, &placed.token)?;
        said.push_str(format!(in alloc; "{}: {}; ", placed.line, token.as_str())?.as_str())?;
    }
    add_ending(alloc, &mut said, found.ending)?;
    Ok(said)
}

/// A token: an operator's name, or its kind and its text.
fn said_of_token(alloc: Global, token: &Token) -> Result<String, AllocError> {
    match token {
        Token::Operator(operator) => format!(in alloc; "{operator:?}"),
        Token::Quoted(text) => format!(in alloc; "quoted {}", text.as_str()),
        Token::Atom(text) => format!(in alloc; "atom {}", text.as_str()),
    }
}

use crate::MOST_READ;
use crate::endings::add_ending;
use regex_tokens::{Comments, Token, tokens};
use std::alloc::{AllocError, Global};

/// A token: an operator's name, or its kind and its text.
fn said_of_token(alloc: Global, token: &Token) -> Result<String, AllocError> {
    match token {
        Token::Operator(operator) => format!(in alloc; "{operator:?}"),
        Token::Quoted(text) => format!(in alloc; "quoted {}", text.as_str()),
        Token::Braced(letters) => format!(in alloc; "{} letters", letters.texts().len()),
        Token::Run(run) if run.escaped => format!(in alloc; "escaped {}", run.text.as_str()),
        Token::Run(run) => format!(in alloc; "run {}", run.text.as_str()),
    }
}

/// Adds a token with its line, and `behind a blank` where it stands so.
fn add_token(
    alloc: Global,
    said: &mut String,
    token: &Token,
    line: u32,
    apart: bool,
) -> Result<(), AllocError> {
    let apart = if apart { " behind a blank" } else { "" };
    let token = said_of_token(alloc, token)?;
    said.push_str(format!(in alloc; "{line}: {}{apart}; ", token.as_str())?.as_str())
}

/// The tokens of a text that begins in line 1, and at the end whether the text ended, or in which line no token begins.
pub fn said_of_tokens(alloc: Global, text: &str) -> Result<String, AllocError> {
    if text.len() > MOST_READ {
        return String::from_str(alloc, "too long");
    }
    let found = tokens(alloc, text, 1, Comments::OfDefinitions)?;
    let mut said = String::new(alloc);
    for (token, place) in found.tokens.iter().zip(found.places.iter()) {
        add_token(alloc, &mut said, token, place.line, place.apart)?;
    }
    add_ending(alloc, &mut said, found.ending)?;
    Ok(said)
}

use crate::{files, sinks, sources, texts, tokens};
use row_texts::undone;
use std::alloc::{AllocError, Global};
use std::rt::Files;

/// What came of a row, or None where it is no such row.
pub fn said_of_row(
    rt: &impl Files,
    alloc: Global,
    field: &str,
    value: &str,
) -> Result<Option<String>, AllocError> {
    match field {
        "directory" => Ok(Some(files::said_of_directory(rt, alloc, value)?)),
        "source" | "nfc" | "order" | "intern" | "cut" | "tokens" => {
            said_of_bytes(alloc, field, &undone(alloc, value)?)
        }
        _ => said_of_stream(alloc, field, value),
    }
}

/// What came of a row whose value is a text, of these bytes.
fn said_of_bytes(alloc: Global, field: &str, bytes: &[u8]) -> Result<Option<String>, AllocError> {
    let text = std::str::from_utf8(bytes).unwrap_or("");
    let said = match field {
        "source" => texts::said_of_source(alloc, bytes),
        "nfc" => texts::said_of_form(alloc, text),
        "order" => texts::said_of_order(alloc, text),
        "intern" => texts::said_of_symbols(alloc, text),
        "cut" => texts::said_of_cut(alloc, text),
        "tokens" => tokens::said_of_tokens(alloc, text),
        _ => return Ok(None),
    }?;
    Ok(Some(said))
}

/// What came of a row whose value is numbers and then a text.
fn said_of_stream(alloc: Global, field: &str, value: &str) -> Result<Option<String>, AllocError> {
    let (words, text) = value.split_once('|').unwrap_or((value, ""));
    let text = text.trim_start();
    let numbers = numbers(alloc, words)?;
    match field {
        "outbox" => Ok(Some(sinks::said_of_outbox(alloc, &numbers, text)?)),
        "read" => Ok(Some(files::said_of_memory(alloc, &numbers, text)?)),
        _ => said_of_calls(alloc, field, &numbers, &undone(alloc, text)?),
    }
}

/// What came of a row whose value is numbers and then bytes.
fn said_of_calls(
    alloc: Global,
    field: &str,
    numbers: &[u64],
    bytes: &[u8],
) -> Result<Option<String>, AllocError> {
    let said = match field {
        "lines" => sources::said_of_lines(alloc, numbers, bytes),
        "reader" => sources::said_of_reader(alloc, numbers, Some(bytes)),
        "no_reader" => sources::said_of_reader(alloc, numbers, None),
        "write" => sinks::said_of_writes(alloc, numbers, bytes),
        "write_all" => sinks::said_of_write_all(alloc, numbers, bytes),
        "writer" => sinks::said_of_writer(alloc, bytes),
        "no_writer" => sinks::said_of_no_writer(alloc, bytes),
        _ => return Ok(None),
    }?;
    Ok(Some(said))
}

/// The numbers that one space separates; 0 for what is none.
fn numbers(alloc: Global, words: &str) -> Result<Vec<u64>, AllocError> {
    let mut found = Vec::new(alloc);
    for word in words.split_ascii_whitespace() {
        found.push(word.parse::<u64>().unwrap_or(0))?;
    }
    Ok(found)
}

use crate::MOST_READ;
use fsm_base::Text;
use interlinear::{Cell, GlossTable, block, words_of};
use regex_ast::ReadError;
use row_texts::{shown, undone};
use std::alloc::{AllocError, Global};

/// What came of a row, or None where it is no such row.
pub fn said_of_row(alloc: Global, field: &str, value: &str) -> Result<Option<String>, AllocError> {
    said_of_bytes(alloc, field, &undone(alloc, value)?)
}

/// What came of a row whose value is a text, of these bytes.
fn said_of_bytes(alloc: Global, field: &str, bytes: &[u8]) -> Result<Option<String>, AllocError> {
    let text = std::str::from_utf8(bytes).unwrap_or("");
    let said = match field {
        "words" => said_of_words(alloc, text),
        "gloss" => {
            let (table, word) = text.split_once('|').unwrap_or((text, ""));
            said_of_gloss(alloc, table, word)
        }
        "block" => said_of_block(alloc, text),
        _ => return Ok(None),
    }?;
    Ok(Some(said))
}

/// The words of a line, each in brackets.
fn said_of_words(alloc: Global, line: &str) -> Result<String, AllocError> {
    let mut said = String::new(alloc);
    for word in &words_of(alloc, line)? {
        said.push('[')?;
        said.push_str(word.as_str())?;
        said.push(']')?;
    }
    Ok(said)
}

/// A word in the glosses of a table, or the table's first fault.
fn said_of_gloss(alloc: Global, table: &str, word: &str) -> Result<String, AllocError> {
    if table.len() > MOST_READ {
        return String::from_str(alloc, "too long");
    }
    match GlossTable::read(alloc, table) {
        Ok(table) => shown(alloc, table.gloss(alloc, word)?.as_str().as_bytes()),
        Err(ReadError::Fault { line, why }) => format!(in alloc; "{line} {why:?}"),
        Err(ReadError::Memory(error)) => Err(error),
    }
}

/// The cell of three words.
fn cell_of(alloc: Global, word: &str, analysis: &str, gloss: &str) -> Result<Cell, AllocError> {
    Ok(Cell {
        word: Text::of(alloc, word)?,
        analysis: Text::of(alloc, analysis)?,
        gloss: Text::of(alloc, gloss)?,
    })
}

/// The cells of a text, each of three words.
fn cells_of(alloc: Global, texts: &str) -> Result<Vec<Cell>, AllocError> {
    let mut cells = Vec::new(alloc);
    let mut words = texts.split_ascii_whitespace();
    while let (Some(word), Some(analysis), Some(gloss)) = (
        words.next(),
        words.next(),
        words.next(),
    ) {
        cells.push(cell_of(alloc, word, analysis, gloss)?)?;
    }
    Ok(cells)
}

/// The block of cells.
fn said_of_block(alloc: Global, texts: &str) -> Result<String, AllocError> {
    let cells = cells_of(alloc, texts)?;
    shown(alloc, &block(alloc, 1, &cells)?)
}

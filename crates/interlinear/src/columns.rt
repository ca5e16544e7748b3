ghost use Rattle.std.specs.Prelude.{◌≡◌, ◌++◌, replicate, IfOk, OnOk};
ghost use Rattle.std.specs.String.{string_bytes};
ghost use Rattle.reply_meaning.specs.Replies.{line_of};
ghost use Rattle.interlinear.specs.Blocks.{column_of, padded, text_in, row_of, block_of};

use fsm_base::Text;
use std::alloc::{AllocError, Global};
use unicode_width::UnicodeWidthStr;

/// A word of a line, with its analysis and its gloss.
#[derive(Debug, Drop)]
pub struct Cell {
    /// The word.
    pub word: Text,
    /// The analysis.
    pub analysis: Text,
    /// The gloss.
    pub gloss: Text,
}

/// A row of a block.
#[derive(Clone, Copy)]
enum Row {
    /// The words.
    Words,
    /// The analyses.
    Analyses,
    /// The glosses.
    Glosses,
}

/// The text of a cell in a row.
fn text_in(row: Row, cell: &Cell) -> &str
    ensures { result.now ≡ text_in row cell.now }
{
    match row {
        Row::Words => cell.word.as_str(),
        Row::Analyses => cell.analysis.as_str(),
        Row::Glosses => cell.gloss.as_str(),
    }
}

/// The columns that a cell takes: those of its widest text.
fn column_of(cell: &Cell) -> usize
    ensures { result ≡ column_of cell.now }
{
    let word = cell.word.as_str().width();
    let analysis = cell.analysis.as_str().width();
    let gloss = cell.gloss.as_str().width();
    word.max(analysis).max(gloss)
}

/// Puts so many spaces.
fn push_spaces(block: &mut String, count: usize) -> Result<(), AllocError>
    ensures { OnOk result (string_bytes block.new ≡ string_bytes block.old ++ replicate count 32) }
{
    'spaces: for _ in 0..count {
        block.push(' ')?;
    }
    Ok(())
}

/// Puts a text of a cell and the space behind it.
fn push_padded(block: &mut String, row: Row, cell: &Cell) -> Result<(), AllocError>
    ensures { OnOk result (string_bytes block.new ≡ string_bytes block.old ++ padded (text_in row) cell.now) }
{
    let text = text_in(row, cell);
    block.push_str(text)?;
    push_spaces(block, column_of(cell).saturating_sub(text.width()))?;
    block.push_str("  ")
}

/// Puts the cells of a row.
fn push_cells(block: &mut String, row: Row, cells: &[Cell]) -> Result<(), AllocError>
    ensures { OnOk result (string_bytes block.new ≡ string_bytes block.old ++ row_of (text_in row) cells.now) }
{
    let Some((last, front)) = cells.split_last() else {
        return Ok(());
    };
    'cells: for cell in front {
        push_padded(block, row, cell)?;
    }
    block.push_str(text_in(row, last))?;
    Ok(())
}

/// Puts a row.
fn push_row(block: &mut String, row: Row, cells: &[Cell]) -> Result<(), AllocError>
    ensures { OnOk result (string_bytes block.new ≡ string_bytes block.old ++ line_of (row_of (text_in row) cells.now)) }
{
    push_cells(block, row, cells)?;
    block.push('\n')
}

/// The block of a line at the version `number`: `V gloss n`, where n is the number of cells, and where that isn't 0 the
/// rows of the words, of the analyses and of the glosses. Each column is as wide as its widest text, as
/// `unicode_width` has it, and two spaces part it from the next one.
pub fn block(alloc: Global, number: u64, cells: &[Cell]) -> Result<Vec<u8>, AllocError>
    ensures { IfOk result (λ bytes. bytes.items ≡ block_of number cells.now) }
{
    let count = cells.len();
    let mut block = format!(in alloc; "{number} gloss {count}\n")?;
    if cells.is_empty() {
        return Ok(block.into_bytes());
    }
    push_row(&mut block, Row::Words, cells)?;
    push_row(&mut block, Row::Analyses, cells)?;
    push_row(&mut block, Row::Glosses, cells)?;
    Ok(block.into_bytes())
}

//! Looks words up in the small networks that rows make, and tells each row and below it what came of it. The program worked_rows runs it
//! on the rows of data/trials/networks.
//!
//! A line `## NAME` is a heading, which is told too: the rows below it, up to the next one, are of the section of that
//! name. An empty line, and another one that begins with `#`, says nothing; in all sections but `lexicon` and `replace` a row
//! in another form is told. `0` is no symbol, and as an answer the empty text.
//!
//! `## lookup`, networks edge by edge: `up SYMBOL .. | EDGE, ..` or `down SYMBOL .. | EDGE, ..`: a word, and the edges of a
//! network. An edge is `FROM UP:LOW TO`, its states and its symbols. The symbols are `a`, `b`, `ab` and `é`, the start is
//! state 0, and the last state is final.
//!
//! `## grammar`, two-level grammars: `up SYMBOL .. | PAIR .. | RULE ; ..` or `down SYMBOL .. | PAIR .. | RULE ; ..`: a word,
//! the feasible pairs and the rules of a grammar. A pair is `X`, which is `X:X`, or `X:Y`. A rule is a pair, `=>`, `<=`, `<=>`
//! or `/<=`, and contexts with `,` between them. A context is atoms, `_` and atoms. An atom is a pair, `X:` or `:Y`, any pair
//! with that side, `?`, any pair, or `.#.`, the edge of the word. The symbols are `a`, `b`, `c`, `d`, `e`, `k`, `m`, `n`,
//! `p`, `t` and `N`.
//!
//! `## lexicon`, lexicons with flags: the lexicons, the root first, with `/` between them. A lexicon is its entries, with `,`
//! between them. An entry is `FORM NEXT`: NEXT is a lexicon, counted from 0, or `#`. FORM is `UPPER:LOWER`, or one text for
//! both. A side is flags `@..@` and symbols of one character each. What they relate is told as `UPPER:LOWER`, sorted, as far as
//! neither side has more than 3 symbols.
//!
//! `## replace`, rules of replacement: `SYMBOL .. ; RULES ; LOOK , ..`. Rules are groups with `,,` between them, each mappings
//! with `,` between them, and after `||`, `//`, `\\` or `\/` contexts with `,` between them. A mapping is `CENTRE -> RESULT`,
//! `CENTRE -> BEFORE ... AFTER` or `[..] -> RESULT`, which stands alone, with `(->)` where rules are optional. A context is a
//! part, `_` and a part. A part is words with `|` between them, a word is atoms side by side, and none is the empty word. An
//! atom is a symbol, `?`, which is any symbol, or `.#.`, the edge of the word, with `*` behind it where it may stand any number
//! of times. A look is `down WORD`, `up WORD`, `all N`: each word of at most N symbols and its lower words, where these aren't
//! just the word, or `marks N`: how many marks there are of the symbols and N mappings.
#![tactic(auto)]

mod answers;
mod grammar_atoms;
mod grammar_rows;
mod grammar_rules;
mod grammar_symbols;
mod lexicon_entries;
mod lexicon_paths;
mod lexicon_rows;
mod lookup_rows;
mod replace_parts;
mod replace_rows;
mod replace_texts;
mod sides;
mod symbols;

use crate::answers::add_line;
use lookup::one_kind;
use row_texts::add_row;
use std::alloc::{AllocError, Global};

/// What the rows below a heading make.
#[derive(Clone, Copy, Debug)]
enum Section {
    Lookup,
    Grammar,
    Lexicon,
    Replace,
    Other,
}

/// The section of a heading's name.
fn section_of(name: &str) -> Section {
    match name {
        "lookup" => Section::Lookup,
        "grammar" => Section::Grammar,
        "lexicon" => Section::Lexicon,
        "replace" => Section::Replace,
        _ => Section::Other,
    }
}

/// The line of what came of a row, or that it is no such row.
fn line_of(alloc: Global, said: Option<String>) -> Result<String, AllocError> {
    let mut line = String::new(alloc);
    match said {
        Some(said) => add_line(&mut line, said.as_str())?,
        None => add_line(&mut line, "no such row")?,
    }
    Ok(line)
}

/// What came of a row of a section, in its lines.
fn said_of_row(alloc: Global, section: Section, row: &str) -> Result<String, AllocError> {
    match section {
        Section::Lookup => line_of(alloc, lookup_rows::said_of_row(alloc, row)?),
        Section::Grammar => line_of(alloc, grammar_rows::said_of_row(alloc, row)?),
        Section::Lexicon => line_of(alloc, Some(lexicon_rows::said_of_row(alloc, row)?)),
        Section::Replace => replace_rows::said_of_row(alloc, row),
        Section::Other => line_of(alloc, None),
    }
}

/// What came of the rows of a text: each heading, and each row with what came of it below.
///
/// # Errors
///
/// Where there was no memory.
pub fn said_of_rows(alloc: Global, rows: &str) -> Result<String, AllocError> {
    one_kind();
    let mut told = String::new(alloc);
    let mut section = Section::Other;
    'rows: for row in rows.lines() {
        if let Some(name) = row.strip_prefix("## ") {
            section = section_of(name);
            row_texts::add_line(&mut told, row)?;
        } else if !row.is_empty() && !row.starts_with('#') {
            add_row(&mut told, row, said_of_row(alloc, section, row)?.as_str())?;
        }
    }
    Ok(told)
}

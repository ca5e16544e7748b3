ghost use Rattle.std.specs.Prelude.{◌≡◌, IfOk, map};
ghost use Rattle.name_resolution.specs.Bytes.{AreOfBytes};
ghost use Rattle.name_resolution.specs.NumberedLexicons.{entry_in, form_in, lexicon_in, piece_in};
ghost use Rattle.name_resolution.specs.Plain.{entry_of, form_of, lexicon_of, lines_of, piece_of};

use crate::names::Names;
use crate::numbers::{letter_in, symbols_of_bytes};
use crate::resolving::resolve;
use fsm_base::{Sym, SymbolTable};
use regex_ast::{Atom, Entry, Form, Lexicon, Piece, Raw};
use std::alloc::{AllocError, Global};

/// A piece with its letter resolved.
fn resolve_piece(
    names: &Names,
    table: &SymbolTable,
    of_bytes: &[Option<Sym>],
    piece: &Piece<Raw>,
) -> Result<Piece<Atom>, AllocError>
    requires { AreOfBytes table.now of_bytes.now }
    ensures { IfOk result (λ found. piece_of found ≡ piece_in names.now table.now (piece_of piece.now)) }
{
    match piece {
        Piece::Symbol(leaf) => Ok(Piece::Symbol(letter_in(names, table, of_bytes, leaf))),
        Piece::Flag(flag) => Ok(Piece::Flag(flag.clone()?)),
    }
}

/// A side with its letters resolved.
fn resolve_side(
    alloc: Global,
    names: &Names,
    table: &SymbolTable,
    of_bytes: &[Option<Sym>],
    side: &[Piece<Raw>],
) -> Result<Vec<Piece<Atom>>, AllocError>
    requires { AreOfBytes table.now of_bytes.now }
    ensures { IfOk result (λ found. map piece_of found.items ≡ map (piece_in names.now table.now) (map piece_of side.now)) }
{
    let mut found = Vec::with_capacity(alloc, side.len())?;
    'side: for piece in side {
        found.push(resolve_piece(names, table, of_bytes, piece)?)?;
    }
    Ok(found)
}

/// A form with its leaves resolved.
fn resolve_form(
    alloc: Global,
    names: &Names,
    table: &SymbolTable,
    of_bytes: &[Option<Sym>],
    form: &Form<Raw>,
) -> Result<Form<Atom>, AllocError>
    requires { AreOfBytes table.now of_bytes.now }
    ensures { IfOk result (λ found. form_of found ≡ form_in names.now table.now (form_of form.now)) }
{
    match form {
        Form::Sides { upper, lower } => {
            let upper = resolve_side(alloc, names, table, of_bytes, upper)?;
            let lower = resolve_side(alloc, names, table, of_bytes, lower)?;
            Ok(Form::Sides { upper, lower })
        }
        Form::Pairs(expr) => Ok(Form::Pairs(resolve(alloc, names, table, expr)?)),
    }
}

/// An entry with its leaves resolved.
fn resolve_entry(
    alloc: Global,
    names: &Names,
    table: &SymbolTable,
    of_bytes: &[Option<Sym>],
    entry: &Entry<Raw>,
) -> Result<Entry<Atom>, AllocError>
    requires { AreOfBytes table.now of_bytes.now }
    ensures entry { IfOk result (λ found. entry_of found ≡ entry_in names.now table.now (entry_of entry.now)) }
    ensures line { IfOk result (λ found. found.line ≡ entry.now.line) }
{
    let form = resolve_form(alloc, names, table, of_bytes, &entry.form)?;
    let next = entry.next.clone()?;
    Ok(Entry {
        line: entry.line,
        form,
        next,
    })
}

/// Entries with their leaves resolved. Each is given back as soon as it is resolved, so that a large lexicon isn't there twice.
fn resolve_entries(
    alloc: Global,
    names: &Names,
    table: &SymbolTable,
    of_bytes: &[Option<Sym>],
    entries: Vec<Entry<Raw>>,
) -> Result<Vec<Entry<Atom>>, AllocError>
    requires { AreOfBytes table.now of_bytes.now }
    ensures entries { IfOk result (λ found. map entry_of found.items ≡ map (entry_in names.now table.now) (map entry_of entries.items)) }
    ensures lines { IfOk result (λ found. map (λ e. e.line) found.items ≡ map (λ e. e.line) entries.items) }
{
    let mut found = Vec::with_capacity(alloc, entries.len())?;
    'entries: for entry in entries {
        found.push(resolve_entry(alloc, names, table, of_bytes, &entry)?)?;
    }
    Ok(found)
}

/// A lexicon with its leaves resolved.
fn resolve_lexicon(
    alloc: Global,
    names: &Names,
    table: &SymbolTable,
    of_bytes: &[Option<Sym>],
    lexicon: Lexicon<Raw>,
) -> Result<Lexicon<Atom>, AllocError>
    requires { AreOfBytes table.now of_bytes.now }
    ensures lexicon { IfOk result (λ found. lexicon_of found ≡ lexicon_in names.now table.now (lexicon_of lexicon)) }
    ensures lines { IfOk result (λ found. lines_of found ≡ lines_of lexicon) }
{
    let Lexicon {
        name,
        line,
        entries,
    } = lexicon;
    let entries = resolve_entries(alloc, names, table, of_bytes, entries)?;
    Ok(Lexicon {
        name,
        line,
        entries,
    })
}

/// Lexicons with their leaves resolved, where these names are defined and this table has the symbols: a leaf of an
/// expression is a symbol, by its number, or a name, by its place, and a letter on a side is a symbol. Lines and the names
/// of lexicons stay. The lexicons are used up.
pub fn resolve_lexicons(
    alloc: Global,
    names: &Names,
    table: &SymbolTable,
    lexicons: Vec<Lexicon<Raw>>,
) -> Result<Vec<Lexicon<Atom>>, AllocError>
    ensures lexicons { IfOk result (λ found. map lexicon_of found.items ≡ map (lexicon_in names.now table.now) (map lexicon_of lexicons.items)) }
    ensures lines { IfOk result (λ found. map lines_of found.items ≡ map lines_of lexicons.items) }
{
    let of_bytes = symbols_of_bytes(alloc, table)?;
    let mut found = Vec::new(alloc);
    'lexicons: for lexicon in lexicons {
        found.push(resolve_lexicon(alloc, names, table, &of_bytes, lexicon)?)?;
    }
    Ok(found)
}

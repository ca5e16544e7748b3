ghost use Rattle.std.specs.Prelude.{◌≡◌, ◌≤◌, ◌+◌, [], length, map, IfOk, OnOk};
ghost use Rattle.std.specs.List.{flat_map};
ghost use Rattle.regex_ast.specs.Terms.{term};
ghost use Rattle.expr_leaves.specs.Leaves.{listed, seen};
ghost use Rattle.expr_leaves.specs.Mapped.{mapped};
ghost use Rattle.name_resolution.specs.Plain.{form_of, lexicon_of, piece_of};
ghost use Rattle.project_meaning.specs.Leaves.{forms_in, leaf_of, resolved, symbol, symbol_in, symbol_of, symbols_in};
ghost use Rattle.project_sources.specs.Limits.{most_symbols};
ghost use Rattle.project_model.specs.Answers.{written_of};
ghost use Rattle.project_meaning.specs.Trees.{sides};
ghost use Rattle.project_model.specs.Gathered.{gathered, symbols_of_all};
ghost use Rattle.name_resolution.specs.Symbols.{symbol_beside, symbols_at, symbols_in_piece};
ghost use Rattle.project_definitions.specs.Plain.{body_of};

use crate::gathered::GatheredSymbols;
use crate::written::WrittenDefine;
use expr_leaves::leaves;
use fsm_base::SymbolTable;
use name_resolution::{
    Names, grammar_leaves, symbol_text, symbols_are_of_forms, symbols_are_of_leaves,
};
use project_definitions::Body;
use project_sources::MOST_SYMBOLS;
use regex_ast::{Entry, Expr, Form, Lexicon, Piece, Raw};
use std::alloc::{AllocError, Global};

/// Puts the symbol of a leaf into a table, where it's new and the table has room for it.
fn add_symbol(leaf: &Raw, names: &Names, table: &mut GatheredSymbols) -> Result<(), AllocError>
    requires { length table.old ≤ most_symbols + 1 }
    ensures { OnOk result (table.new ≡ gathered table.old (symbol_beside names.now leaf.now)) }
{
    if names.is_symbol(leaf) && table.len() <= MOST_SYMBOLS {
        table.intern(symbol_text(leaf))?;
    }
    Ok(())
}

/// Puts the symbols of leaves into a table, each where it's new and the table has room for it.
fn add_symbols(
    leaves: &[&Raw],
    names: &Names,
    table: &mut GatheredSymbols,
) -> Result<(), AllocError>
    requires { length table.old ≤ most_symbols + 1 }
    ensures { OnOk result (table.new ≡ gathered table.old (flat_map (symbol_beside names.now) (seen leaves.now))) }
{
    'leaves: for leaf in leaves {
        add_symbol(leaf, names, table)?;
    }
    Ok(())
}

/// Puts the symbols of an expression into a table, each where it's new and the table has room for it.
fn add_expression(
    alloc: Global,
    expr: &Expr<Raw>,
    names: &Names,
    table: &mut GatheredSymbols,
) -> Result<(), AllocError>
    requires { length table.old ≤ most_symbols + 1 }
    ensures { OnOk result (table.new ≡ gathered table.old (listed symbol_in (mapped (leaf_of names.now) (term expr.now)))) }
{
    add_symbols(&leaves(alloc, expr)?, names, table)?;
    Ok(())
}

/// Puts a text into a table, where it isn't empty, it's new and the table has room for it.
fn add_letter(text: &str, table: &mut GatheredSymbols) -> Result<(), AllocError>
    requires { length table.old ≤ most_symbols + 1 }
    ensures { OnOk result (table.new ≡ gathered table.old (symbol_in (symbol text.now))) }
{
    if !text.is_empty() && table.len() <= MOST_SYMBOLS {
        table.intern(text)?;
    }
    Ok(())
}

/// Puts the symbol of a piece into a table, if it is one, where it's new and the table has room for it.
fn add_piece(piece: &Piece<Raw>, table: &mut GatheredSymbols) -> Result<(), AllocError>
    requires { length table.old ≤ most_symbols + 1 }
    ensures { OnOk result (table.new ≡ gathered table.old (symbols_in_piece (piece_of piece.now))) }
{
    match piece {
        Piece::Symbol(leaf) => add_letter(symbol_text(leaf), table),
        Piece::Flag(_) => Ok(()),
    }
}

/// Puts the symbols of a side into a table, each where it's new and the table has room for it.
fn add_side(side: &[Piece<Raw>], table: &mut GatheredSymbols) -> Result<(), AllocError>
    requires { length table.old ≤ most_symbols + 1 }
    ensures { OnOk result (table.new ≡ gathered table.old (flat_map symbols_in_piece (map piece_of side.now))) }
{
    'pieces: for piece in side {
        add_piece(piece, table)?;
    }
    Ok(())
}

/// Puts the symbols of two sides into a table, each where it's new and the table has room for it.
fn add_sides(
    upper: &[Piece<Raw>],
    lower: &[Piece<Raw>],
    names: &Names,
    table: &mut GatheredSymbols,
) -> Result<(), AllocError>
    requires { length table.old ≤ most_symbols + 1 }
    ensures { OnOk result (table.new ≡ gathered table.old (symbols_at names.now (sides (map piece_of upper.now) (map piece_of lower.now)))) }
{
    add_side(upper, table)?;
    add_side(lower, table)
}

/// Puts the symbols of a form into a table, each where it's new and the table has room for it.
fn add_form(
    alloc: Global,
    form: &Form<Raw>,
    names: &Names,
    table: &mut GatheredSymbols,
) -> Result<(), AllocError>
    requires { length table.old ≤ most_symbols + 1 }
    ensures { OnOk result (table.new ≡ gathered table.old (symbols_at names.now (form_of form.now))) }
{
    match form {
        Form::Sides { upper, lower } => add_sides(upper, lower, names, table),
        Form::Pairs(expr) => add_symbols(&leaves(alloc, expr)?, names, table),
    }
}

/// Puts the symbols of entries into a table, each where it's new and the table has room for it.
fn add_entries(
    alloc: Global,
    entries: &[Entry<Raw>],
    names: &Names,
    table: &mut GatheredSymbols,
) -> Result<(), AllocError>
    requires { length table.old ≤ most_symbols + 1 }
    ensures { OnOk result (table.new ≡ gathered table.old (flat_map (symbols_at names.now) (map (λ e. form_of e.form) entries.now))) }
{
    'entries: for entry in entries {
        add_form(alloc, &entry.form, names, table)?;
    }
    Ok(())
}

/// Puts the symbols of lexicons into a table, each where it's new and the table has room for it.
fn add_lexicons(
    alloc: Global,
    lexicons: &[Lexicon<Raw>],
    names: &Names,
    table: &mut GatheredSymbols,
) -> Result<(), AllocError>
    requires { length table.old ≤ most_symbols + 1 }
    ensures { OnOk result (table.new ≡ gathered table.old (flat_map (symbols_at names.now) (forms_in (map lexicon_of lexicons.now)))) }
{
    'lexicons: for lexicon in lexicons {
        add_entries(alloc, &lexicon.entries, names, table)?;
    }
    Ok(())
}

/// Puts the texts of leaves that are no names into a table, each where it isn't empty, it's new and the table has room for it.
fn add_letters(leaves: &[&Raw], table: &mut GatheredSymbols) -> Result<(), AllocError>
    requires { length table.old ≤ most_symbols + 1 }
    ensures { OnOk result (table.new ≡ gathered table.old (flat_map (λ leaf. symbol_in (symbol_of leaf)) (seen leaves.now))) }
{
    'leaves: for leaf in leaves {
        add_letter(symbol_text(leaf), table)?;
    }
    Ok(())
}

/// Puts the symbols of what a name stands for into a table, each where it's new and the table has room for it.
fn add_body(
    alloc: Global,
    body: &Body<Raw>,
    names: &Names,
    table: &mut GatheredSymbols,
) -> Result<(), AllocError>
    requires { length table.old ≤ most_symbols + 1 }
    ensures { OnOk result (table.new ≡ gathered table.old (symbols_in (resolved names.now (body_of body.now)))) }
{
    // the laws that the symbols of lexicons and of a grammar are those of their leaves
    symbols_are_of_forms();
    symbols_are_of_leaves();
    match body {
        Body::Xfst(expr) => add_expression(alloc, expr, names, table),
        Body::Lexc(lexicons) => add_lexicons(alloc, lexicons, names, table),
        Body::Twolc(grammar) => {
            add_letters(&grammar_leaves(alloc, grammar)?, table)?;
            Ok(())
        }
    }
}

/// The symbols that stand in definitions where these names are defined, in the order of their first places. Where
/// they are more than a project may have, it's one more than that.
pub fn symbols_of(
    alloc: Global,
    names: &Names,
    written: &[WrittenDefine],
) -> Result<SymbolTable, AllocError>
    ensures { IfOk result (λ table. table ≡ gathered [] (symbols_of_all names.now (map written_of written.now))) }
{
    let mut table = GatheredSymbols::new(alloc)?;
    'written: for one in written {
        add_body(alloc, &one.body, names, &mut table)?;
    }
    Ok(table.into_table())
}

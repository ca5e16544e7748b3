ghost use Rattle.std.specs.Prelude.{◌≡◌, ◌⊎◌, ◌↔◌, Contains, OnOk, map};
ghost use Rattle.std.specs.List.{flat_map};
ghost use Rattle.fsm_base.specs.declared.letters.Sym.{Sym as Symbol};
ghost use Rattle.expr_leaves.specs.Leaves.{seen};
ghost use Rattle.name_resolution.specs.Plain.{form_of, lexicon_of, piece_of};
ghost use Rattle.project_meaning.specs.Leaves.{forms_in};
ghost use Rattle.project_meaning.specs.Lexicons.{letters_of};
ghost use Rattle.project_definitions.specs.Plain.{body_of};
ghost use Rattle.network_build.specs.Gathered.{AddsLeaves};
ghost use Rattle.network_build.specs.Networks.{body_leaves, form_leaves};

use crate::symbol_list::SymbolList;
use expr_leaves::leaves;
use name_resolution::grammar_leaves;
use project_definitions::Body;
use regex_ast::{Atom, Entry, Form, Lexicon, Piece};
use std::alloc::{AllocError, Global};

/// Adds the symbols that stand in what a name stands for.
pub fn add_body(
    alloc: Global,
    body: &Body<Atom>,
    symbols: &mut SymbolList,
) -> Result<(), AllocError>
    ensures { OnOk result (AddsLeaves symbols.old symbols.new (body_leaves (body_of body.now))) }
{
    match body {
        Body::Xfst(expr) => add_leaves(&leaves(alloc, expr)?, symbols),
        Body::Lexc(lexicons) => add_lexicons(alloc, lexicons, symbols),
        Body::Twolc(grammar) => add_leaves(&grammar_leaves(alloc, grammar)?, symbols),
    }
}

/// Adds the symbols that stand in lexicons. A lexicon has many entries, so no list of its leaves is made.
fn add_lexicons(
    alloc: Global,
    lexicons: &[Lexicon<Atom>],
    symbols: &mut SymbolList,
) -> Result<(), AllocError>
    ensures { OnOk result (AddsLeaves symbols.old symbols.new (flat_map form_leaves (forms_in (map lexicon_of lexicons.now)))) }
{
    'lexicons: for lexicon in lexicons {
        add_entries(alloc, &lexicon.entries, symbols)?;
    }
    Ok(())
}

/// Adds the symbols that stand in entries.
fn add_entries(
    alloc: Global,
    entries: &[Entry<Atom>],
    symbols: &mut SymbolList,
) -> Result<(), AllocError>
    ensures { OnOk result (AddsLeaves symbols.old symbols.new (flat_map form_leaves (map (λ e. form_of e.form) entries.now))) }
{
    'entries: for entry in entries {
        add_form(alloc, &entry.form, symbols)?;
    }
    Ok(())
}

/// Adds the symbols that stand in a form.
fn add_form(alloc: Global, form: &Form<Atom>, symbols: &mut SymbolList) -> Result<(), AllocError>
    ensures { OnOk result (AddsLeaves symbols.old symbols.new (form_leaves (form_of form.now))) }
{
    match form {
        Form::Sides { upper, lower } => {
            add_side(upper, symbols)?;
            add_side(lower, symbols)
        }
        Form::Pairs(expr) => add_leaves(&leaves(alloc, expr)?, symbols),
    }
}

/// Adds the symbols that stand on a side.
fn add_side(side: &[Piece<Atom>], symbols: &mut SymbolList) -> Result<(), AllocError>
    ensures { OnOk result (AddsLeaves symbols.old symbols.new (flat_map letters_of (map piece_of side.now))) }
{
    'side: for piece in side {
        add_piece(piece, symbols)?;
    }
    Ok(())
}

/// Adds the symbol of a piece, if it is one.
fn add_piece(piece: &Piece<Atom>, symbols: &mut SymbolList) -> Result<(), AllocError>
    ensures { OnOk result (AddsLeaves symbols.old symbols.new (letters_of (piece_of piece.now))) }
{
    match piece {
        Piece::Symbol(leaf) => add_symbol(leaf, symbols),
        Piece::Flag(_) => Ok(()),
    }
}

/// Adds the symbols among leaves.
fn add_leaves(leaves: &[&Atom], symbols: &mut SymbolList) -> Result<(), AllocError>
    ensures { OnOk result (AddsLeaves symbols.old symbols.new (seen leaves.now)) }
{
    'leaves: for leaf in leaves {
        add_symbol(leaf, symbols)?;
    }
    Ok(())
}

/// Adds the symbol of a leaf. A name has none.
fn add_symbol(leaf: &Atom, symbols: &mut SymbolList) -> Result<(), AllocError>
    ensures { OnOk result ((s : Symbol) → Contains symbols.new s ↔ (Contains symbols.old s ⊎ (leaf.now ≡ Atom.Sym s))) }
{
    if let Atom::Sym(symbol) = leaf {
        symbols.add(*symbol)?;
    }
    Ok(())
}

ghost use Rattle.std.specs.Prelude.{◌≡◌, IfOk};
ghost use Rattle.regex_ast.specs.Terms.{term};
ghost use Rattle.expr_leaves.specs.Mapped.{mapped};
ghost use Rattle.name_resolution.specs.Resolved.{atom_of, letter_of};

use crate::names::Names;
use crate::symbols::symbol_text;
use expr_leaves::{LeafMap, map_leaves};
use fsm_base::SymbolTable;
use regex_ast::{Atom, Expr, Raw};
use std::alloc::{AllocError, Global};

/// What a leaf is where these names are defined and this table has the symbols: a symbol, by its number, or a
/// definition, by its place. The reader gives no leaf without a text; such a one counts as a name behind all others, so
/// that what it stands in can't be built.
pub fn atom_of(names: &Names, table: &SymbolTable, leaf: &Raw) -> Atom
    ensures { result ≡ atom_of names.now table.now leaf.now }
{
    let text = symbol_text(leaf);
    if names.is_symbol(leaf) {
        Atom::Sym(table.number_of(text))
    } else if names.is_name(leaf) {
        Atom::Name(names.number_of(text))
    } else {
        Atom::Name(names.end())
    }
}

/// What a leaf is where no name may stand and this table has the symbols: a symbol, by its number. One without a text, which
/// the readers don't give, counts as a name behind all others.
pub fn letter_of(names: &Names, table: &SymbolTable, leaf: &Raw) -> Atom
    ensures { result ≡ letter_of names.now table.now leaf.now }
{
    let text = symbol_text(leaf);
    if text.is_empty() {
        Atom::Name(names.end())
    } else {
        Atom::Sym(table.number_of(text))
    }
}

/// What leaves are where names are defined and a table has the symbols.
#[derive(Drop)]
struct LeafResolver<'a> {
    /// The names.
    names: &'a Names,
    /// The table.
    table: &'a SymbolTable,
}

impl LeafMap<Raw, Atom> for LeafResolver<'_> {
    ghost image = { λ r. atom_of r.names.now r.table.now };

    fn image_of(&self, _alloc: Global, leaf: &Raw) -> Result<Atom, AllocError> {
        Ok(atom_of(self.names, self.table, leaf))
    }
}

/// An expression with its leaves resolved, where these names are defined and this table has the symbols.
pub fn resolve(
    alloc: Global,
    names: &Names,
    table: &SymbolTable,
    expr: &Expr<Raw>,
) -> Result<Expr<Atom>, AllocError>
    ensures { IfOk result (λ resolved. term resolved ≡ mapped (atom_of names.now table.now) (term expr.now)) }
{
    map_leaves(alloc, &LeafResolver { names, table }, expr)
}

ghost use Rattle.std.specs.Prelude.{◌≡◌, ◌∷◌, [], ℕ, Some, IfOk, IfSome, length, slice_get};
ghost use Rattle.name_resolution.specs.Bytes.{AreOfBytes};
ghost use Rattle.name_resolution.specs.Resolved.{letter_of};

use crate::names::Names;
use crate::resolving::letter_of;
use crate::symbols::symbol_text;
use fsm_base::{Sym, SymbolTable};
use regex_ast::{Atom, Raw};
use std::alloc::{AllocError, Global};

/// How many bytes there are.
const BYTES: usize = 256;

/// How many symbols of a table are looked at for those of single bytes, which come early.
const FIRST: usize = 1_024;

/// For each byte the symbol of a table whose text it is, as far as the first symbols tell.
pub fn symbols_of_bytes(alloc: Global, table: &SymbolTable) -> Result<Vec<Option<Sym>>, AllocError>
    ensures { IfOk result (λ symbols. AreOfBytes table.now symbols.items) }
{
    let mut symbols = vec![in alloc; None; BYTES]?;
    'numbers: for number in 0..table.len().min(FIRST) {
        let Some(text) = table.text_of(Sym(number as u32)) else {
            unreachable!()
        };
        put(&mut symbols, table, text);
    }
    Ok(symbols)
}

/// Puts the symbol of a text that is a single byte at that byte.
fn put(symbols: &mut [Option<Sym>], table: &SymbolTable, text: &str)
    requires count { length symbols.old ≡ 256 }
    requires symbols { AreOfBytes table.now symbols.old }
    ensures count { length symbols.new ≡ 256 }
    ensures symbols { AreOfBytes table.now symbols.new }
{
    let bytes = text.as_bytes();
    let len = bytes.len();
    if len != 1 {
        return;
    }
    let byte = usize::from(bytes[0]);
    symbols[byte] = Some(table.number_of(text));
}

/// The symbol of a text that is a single byte, if it's known.
fn symbol_of(symbols: &[Option<Sym>], text: &[u8]) -> Option<Sym>
    ensures { IfSome result (λ symbol. (byte : ℕ) × (text.now ≡ byte ∷ []) × (slice_get symbols.now byte ≡ Some (Some symbol))) }
{
    let (byte, rest) = text.split_first()?;
    if !rest.is_empty() {
        return None;
    }
    *symbols.get(usize::from(*byte))?
}

/// What a letter is, where no name may stand and this table has the symbols, of which those of single bytes are at hand.
pub fn letter_in(names: &Names, table: &SymbolTable, of_bytes: &[Option<Sym>], leaf: &Raw) -> Atom
    requires { AreOfBytes table.now of_bytes.now }
    ensures { result ≡ letter_of names.now table.now leaf.now }
{
    match symbol_of(of_bytes, symbol_text(leaf).as_bytes()) {
        Some(symbol) => Atom::Sym(symbol),
        None => letter_of(names, table, leaf),
    }
}

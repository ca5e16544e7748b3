ghost use Rattle.std.specs.Prelude.{◌≡◌, ◌≤◌, ℕ, Some, IfOk, length, slice_get};
ghost use Rattle.fsm_base.specs.declared.letters.Sym.{Sym};

use fsm_base::{Alphabet, Sym, SymbolTable};
use std::alloc::{AllocError, Global};

/// How many symbols a row may have.
const MOST: usize = 65536;

/// The symbols of a row.
#[derive(Drop)]
pub struct Symbols {
    /// Their texts, by their numbers.
    pub table: SymbolTable,
    /// All of them.
    pub alphabet: Alphabet,
}

impl Symbols {
    /// The text of a symbol.
    pub fn text_of(&self, symbol: Sym) -> &str {
        self.table.text_of(symbol).unwrap_or("")
    }

    /// The symbol with a text, or None where it is none.
    pub fn symbol_of(&self, text: &str) -> Option<Sym> {
        for symbol in self.alphabet.symbols() {
            if self.text_of(*symbol) == text {
                return Some(*symbol);
            }
        }
        None
    }
}

/// The symbols of a text.
pub fn symbols_of(alloc: Global, texts: &str) -> Result<Symbols, AllocError> {
    let mut table = SymbolTable::new(alloc);
    'texts: for text in texts.split_ascii_whitespace() {
        add_text(&mut table, text)?;
    }
    let symbols = symbols_below(alloc, count_of(&table))?;
    let alphabet = Alphabet::of(alloc, &table, &symbols)?;
    Ok(Symbols { table, alphabet })
}

/// Adds a symbol, if there is room.
fn add_text(table: &mut SymbolTable, text: &str) -> Result<(), AllocError> {
    if !text.is_empty() && table.len() < MOST {
        table.intern(text)?;
    }
    Ok(())
}

/// How many symbols there are.
fn count_of(table: &SymbolTable) -> u32
    ensures { result ≤ length table.now }
{
    let count = table.len();
    if count <= MOST { count as u32 } else { 0 }
}

/// The symbols of the numbers below this one, in their order.
fn symbols_below(alloc: Global, count: u32) -> Result<Vec<Sym>, AllocError>
    ensures numbers { IfOk result (λ symbols. (place : ℕ) (x : Sym) → slice_get symbols.items place ≡ Some x → x.0 ≡ place) }
    ensures count { IfOk result (λ symbols. length symbols.items ≡ count) }
{
    let mut symbols = Vec::new(alloc);
    'numbers: for number in 0..count {
        symbols.push(Sym(number))?;
    }
    Ok(symbols)
}

/// The symbols of a word. A text that is none is left out.
pub fn word_of(alloc: Global, symbols: &Symbols, texts: &str) -> Result<Vec<Sym>, AllocError> {
    let mut word = Vec::new(alloc);
    'texts: for text in texts.split_ascii_whitespace() {
        if let Some(symbol) = symbols.symbol_of(text) {
            word.push(symbol)?;
        }
    }
    Ok(word)
}

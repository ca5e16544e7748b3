ghost use Rattle.std.specs.Prelude.{◌≡◌, ◌<◌, ◌⊎◌, ◌∷◌, [], ℕ, Some, true, IfOk, OnOk, length, slice_get};
ghost use Rattle.std.specs.Bool.{OnTrue};
ghost use Rattle.fsm_base.specs.Symbols.{with_text};

use fsm_base::SymbolTable;
use std::alloc::{AllocError, Global};
use std::marker::Model;

/// How many bytes there are.
const BYTES: usize = 256;

/// Symbols that are gathered in a table. Most are single bytes and come many times, so those are known to stand there without a
/// search. Contracts see the texts of the table.
#[derive(Drop)]
pub struct GatheredSymbols {
    /// The table.
    table: SymbolTable,
    /// Whether the table is known to have each byte as a text.
    known: Vec<bool>,
}

impl Model for GatheredSymbols {
    ghost use Rattle.std.specs.Prelude.{◌≡◌, List, ℕ, length};
    ghost use Rattle.project_model.specs.Known.{AreKnown};

    ghost Value = { List (List ℕ) };

    ghost view = { λ symbols. symbols.table };

    ghost invariant = { λ symbols. (length symbols.known.items ≡ 256) × AreKnown symbols.table symbols.known.items };
}

impl GatheredSymbols {
    /// No symbols.
    pub fn new(alloc: Global) -> Result<GatheredSymbols, AllocError>
        ensures { IfOk result (λ symbols. symbols ≡ []) }
    {
        Ok(GatheredSymbols {
            table: SymbolTable::new(alloc),
            known: vec![in alloc; false; BYTES]?,
        })
    }

    /// How many symbols there are.
    pub fn len(&self) -> usize
        ensures { result ≡ length self.now }
    {
        self.table.len()
    }

    /// Puts the symbol with this text behind the others, where it's new.
    pub fn intern(&mut self, text: &str) -> Result<(), AllocError>
        requires some { 0 < length text.now }
        requires room { length self.old < 16777216 }
        ensures table { OnOk result (self.new ≡ with_text text.now self.old) }
    {
        if is_known(&self.known, text.as_bytes()) {
            return Ok(());
        }
        self.table.intern(text)?;
        mark(&mut self.known, text.as_bytes());
        Ok(())
    }

    /// The table of the symbols.
    pub fn into_table(self) -> SymbolTable
        ensures { result ≡ self }
    {
        self.table
    }
}

/// Whether a text is a single byte that is marked.
fn is_known(known: &[bool], text: &[u8]) -> bool
    requires { length known.now ≡ 256 }
    ensures { OnTrue result ((byte : ℕ) × (text.now ≡ byte ∷ []) × (slice_get known.now byte ≡ Some true)) }
{
    let len = text.len();
    if len != 1 {
        return false;
    }
    let byte = usize::from(text[0]);
    known[byte]
}

/// Marks a text that is a single byte.
fn mark(known: &mut [bool], text: &[u8])
    requires { length known.old ≡ 256 }
    ensures count { length known.new ≡ 256 }
    ensures marked { (byte : ℕ) → slice_get known.new byte ≡ Some true → (slice_get known.old byte ≡ Some true) ⊎ (text.now ≡ byte ∷ []) }
{
    let len = text.len();
    if len != 1 {
        return;
    }
    let byte = usize::from(text[0]);
    known[byte] = true;
}

//! The symbols of one byte that no longer text of their alphabet begins with: most symbols of most alphabets. Where a
//! text goes on with such a byte, its next symbol is known without a search.
ghost use Rattle.std.specs.Prelude.{◌≡◌, ◌⊎◌, ◌∷◌, [], ℕ, List, Some, true, false, IfOk, IfSome, length, slice_get};
ghost use Rattle.fsm_base.specs.Lone.{AreLone, MarksLonger};
ghost use Rattle.fsm_base.specs.Sorted.{texts_in};
ghost use Rattle.fsm_base.specs.declared.letters.Sym.{Sym};

use crate::Sym;
use crate::longest::Entry;
use std::alloc::{AllocError, Global};

/// How many bytes there are.
const BYTES: usize = 256;

/// For each byte the symbol whose text it is, where no longer text begins with it.
pub(crate) fn lone_symbols(alloc: Global, entries: &[Entry]) -> Result<Vec<Option<Sym>>, AllocError>
    ensures { IfOk result (λ lone. AreLone entries.now lone.items) }
{
    let longer = first_bytes_of_longer(alloc, entries)?;
    let mut lone = vec![in alloc; None; BYTES]?;
    for entry in entries {
        put_lone(&mut lone, &longer, entry);
    }
    Ok(lone)
}

/// Whether a text of two bytes or more begins with each byte.
fn first_bytes_of_longer(alloc: Global, entries: &[Entry]) -> Result<Vec<bool>, AllocError>
    ensures count { IfOk result (λ longer. length longer.items ≡ 256) }
    ensures marked { IfOk result (λ longer. MarksLonger (texts_in entries.now) longer.items) }
{
    let mut longer = vec![in alloc; false; BYTES]?;
    for entry in entries {
        mark_longer(&mut longer, entry.text.as_str().as_bytes());
    }
    Ok(longer)
}

/// Marks the first byte of a text of two bytes or more.
fn mark_longer(longer: &mut [bool], text: &[u8])
    requires { length longer.old ≡ 256 }
    ensures count { length longer.new ≡ 256 }
    ensures kept { (byte : ℕ) → slice_get longer.old byte ≡ Some true → slice_get longer.new byte ≡ Some true }
    ensures marked { (byte next : ℕ) (rest : List ℕ) → text.now ≡ byte ∷ next ∷ rest → slice_get longer.new byte ≡ Some true }
{
    let len = text.len();
    if len < 2 {
        return;
    }
    longer[usize::from(text[0])] = true;
}

/// Puts a symbol at the byte that is its text, where no longer text begins with that.
fn put_lone(lone: &mut [Option<Sym>], longer: &[bool], entry: &Entry)
    requires bytes { length lone.old ≡ 256 }
    requires marks { length longer.now ≡ 256 }
    ensures count { length lone.new ≡ 256 }
    ensures put { (byte : ℕ) (symbol : Sym) → slice_get lone.new byte ≡ Some (Some symbol) → (slice_get lone.old byte ≡ Some (Some symbol)) ⊎ ((entry.now.text ≡ byte ∷ []) × (entry.now.symbol ≡ symbol) × (slice_get longer.now byte ≡ Some false)) }
{
    let text = entry.text.as_str().as_bytes();
    let len = text.len();
    if len != 1 {
        return;
    }
    let byte = usize::from(text[0]);
    let is_longer = longer[byte];
    if is_longer {
        return;
    }
    lone[byte] = Some(entry.symbol);
}

/// The lone symbol that these bytes begin with.
pub(crate) fn lone_symbol(lone: &[Option<Sym>], bytes: &[u8]) -> Option<Sym>
    ensures { IfSome result (λ symbol. (byte : ℕ) × (rest : List ℕ) × (bytes.now ≡ byte ∷ rest) × (slice_get lone.now byte ≡ Some (Some symbol))) }
{
    let (byte, _) = bytes.split_first()?;
    *lone.get(usize::from(*byte))?
}

ghost use Rattle.std.specs.Prelude.{◌↔◌, All, Contains, IfOk, IsTrue};
ghost use Rattle.fsm_base.specs.Alphabet.{IsAlphabet, texts_of};
ghost use Rattle.named_networks.specs.Fields.{HasNoBreak};

use fsm_base::Alphabet;
use std::alloc::{AllocError, Global};

/// Whether one of the symbols has this text.
pub(crate) fn has_symbol(
    alloc: Global,
    alphabet: &Alphabet,
    wanted: &str,
) -> Result<bool, AllocError>
    ensures { IfOk result (λ found. IsTrue found ↔ Contains (texts_of alphabet.now) wanted.now) }
{
    'symbols: for symbol in alphabet.symbols() {
        if alphabet.text(alloc, &[*symbol])?.as_str() == wanted {
            return Ok(true);
        }
    }
    Ok(false)
}

/// Whether a text has neither a tab nor a newline.
fn is_unbroken(text: &str) -> bool
    ensures { IsTrue result ↔ HasNoBreak text.now }
{
    text.as_bytes()
        .iter()
        .all(|byte| *byte != b'\t' && *byte != b'\n')
}

/// Whether no symbol's text has a tab or a newline, which would end a field of an AT&T text.
pub(crate) fn are_unbroken(alloc: Global, alphabet: &Alphabet) -> Result<bool, AllocError>
    ensures unbroken { IfOk result (λ unbroken. IsTrue unbroken ↔ All HasNoBreak (texts_of alphabet.now)) }
    ensures formed { IfOk result (λ unbroken. IsAlphabet alphabet.now) }
{
    'symbols: for symbol in alphabet.symbols() {
        if !is_unbroken(alphabet.text(alloc, &[*symbol])?.as_str()) {
            return Ok(false);
        }
    }
    Ok(true)
}

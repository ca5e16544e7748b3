ghost use Rattle.std.specs.Prelude.{◌≡◌, Some, Contains, IsTrue};
ghost use Rattle.fsm_base.specs.Alphabet.{symbols_of};
ghost use Rattle.fsm_base.specs.declared.letters.Sym.{Sym};

use fsa::place_of;
use fsm_base::{Alphabet, Sym};

/// Whether the side is nothing or of the alphabet.
pub fn is_side(alphabet: &Alphabet, side: Option<Sym>) -> bool
    ensures { IsTrue result → (symbol : Sym) → side ≡ Some symbol → Contains (symbols_of alphabet.now) symbol }
{
    match side {
        Some(symbol) => place_of(alphabet.symbols(), symbol).is_some(),
        None => true,
    }
}

ghost use Rattle.std.specs.Prelude.{◌≡◌, ◌<◌, ◌-◌, ◌^◌, List, ℕ, Some, length, slice_get, IfOk};
ghost use Rattle.fsm_base.specs.declared.letters.Sym.{Sym};
ghost use Rattle.att_text.specs.Paths.{HasSymbolsIn};
ghost use Rattle.saved_networks.specs.Networks.{IsReadFrom, IsSavedAs};
ghost use Rattle.saved_networks.specs.Replies.{RepliesToWordBySaved};

use fsa::Fsa;
use fsm_base::{Alphabet, Pair, Sym, SymbolTable, TokensError};
use lookup::{Net, up};
use reply_text::{answer, symbol};
use std::alloc::{AllocError, Global};
use std::marker::Model;

/// The network of an AT&T text, ready for look-ups over the symbols of the text. Contracts see the network and these.
#[derive(Drop)]
pub struct SavedNetwork {
    /// The symbols of the text.
    alphabet: Alphabet,
    /// The network.
    net: Net,
}

impl Model for SavedNetwork {
    ghost use Rattle.lookup_walk.specs.Answering.{IsOverAlphabet};
    ghost use Rattle.saved_networks.specs.Networks.{SavedView};

    ghost Value = { SavedView };

    ghost view = { λ n. record { alphabet = n.alphabet; net = n.net } };

    ghost invariant = { λ n. IsOverAlphabet n.alphabet n.net };
}

/// The symbols with the numbers below the count.
fn symbols_below(alloc: Global, count: usize) -> Result<Vec<Sym>, AllocError>
    requires { count < 2 ^ 32 }
    ensures numbers { IfOk result (λ symbols. (place : ℕ) (x : Sym) → slice_get symbols.items place ≡ Some x → x.0 ≡ place) }
    ensures count { IfOk result (λ symbols. length symbols.items ≡ count) }
{
    let mut symbols = Vec::with_capacity(alloc, count)?;
    'numbers: for number in 0..count {
        symbols.push(Sym(number as u32))?;
    }
    Ok(symbols)
}

impl SavedNetwork {
    /// The network over the symbols of a table.
    pub(crate) fn of(
        alloc: Global,
        table: &SymbolTable,
        net: &Fsa<Pair>,
    ) -> Result<SavedNetwork, AllocError>
        requires { HasSymbolsIn table.now net.now }
        ensures { (text : List ℕ) → IsReadFrom text table.now net.now → IfOk result (λ saved. IsSavedAs text saved) }
    {
        let symbols = symbols_below(alloc, table.len())?;
        let alphabet = Alphabet::of(alloc, table, &symbols)?;
        let ready = Net::of(alloc, net)?;
        Ok(SavedNetwork {
            alphabet,
            net: ready,
        })
    }

    /// The reply to a word in Normalization Form C, at a version: the texts of the upper words that the text relates to its cut, or the
    /// first character at which no symbol of the text begins.
    pub fn reply_to(&self, alloc: Global, version: u64, word: &str) -> Result<Vec<u8>, AllocError>
        requires { length word.now < 2 ^ 32 - 1 }
        ensures { (text : List ℕ) → IsSavedAs text self.now → IfOk result (λ bytes. RepliesToWordBySaved text version word.now bytes.items) }
    {
        match self.alphabet.tokens(alloc, word) {
            Ok(symbols) => {
                let found = up(alloc, &self.net, &self.alphabet, &symbols)?;
                answer(alloc, version, word, &found)
            }
            Err(TokensError::NoSymbol { at }) => symbol(alloc, version, at, word),
            Err(TokensError::Memory(error)) => Err(error),
        }
    }
}

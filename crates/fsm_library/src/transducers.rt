//! Relations between words of symbols, as automata over pairs of symbols, and look-up in them.

pub use fsm_base::{Alphabet, Pair, Sym, SymbolTable, Text};
pub use fst_algebra::{cross, identity, inverse, lower, upper};
pub use fst_compose::compose;
pub use lookup::{Answer, Net, down, up};

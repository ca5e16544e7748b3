//! Letters, texts, symbols and alphabets.
//!
//! - [`Letter`], [`Sym`], [`Pair`], [`Bound`]: what automata read.
//! - [`Text`]: a text, ordered by its bytes.
//! - [`normal`]: the text of a source from its bytes; [`nfc`] brings a text into the same form,
//!   Normalization Form C.
//! - [`Hints`]: where things may stand that are looked for often.
//! - [`TextTable`]: different texts, by their places; [`SymbolTable`]: the texts of the symbols, by their numbers.
//! - [`Alphabet`]: symbols with their texts; [`Alphabet::tokens`] cuts a text into symbols, and
//!   [`Alphabet::text`] joins them again.
//! - [`cut_takes_longest`]: the law of the cut, as a contract.
#![tactic(auto)]

mod alphabet;
mod hints;
mod laws;
mod letters;
mod lone;
mod longest;
mod normalize;
mod symbols;
mod text;
mod texts;

pub use alphabet::{Alphabet, TokensError};
pub use hints::Hints;
pub use laws::cut_takes_longest;
pub use letters::{Bound, Letter, Pair, Sym};
pub use normalize::{TextError, nfc, normal};
pub use symbols::SymbolTable;
pub use text::Text;
pub use texts::TextTable;

//! The forms of a lexc text (Beesley and Karttunen, Finite State Morphology, 2003, chapter 4): how a word is cut into symbols
//! and flag diacritics, and what stands on its two sides.
//!
//! - [`Letter`]: a character of a word, escaped or not; [`text_of`]: the text of letters.
//! - [`DeclaredSymbols`]: the declared multicharacter symbols.
//! - [`SharedTexts`]: texts that come often, which are made once.
//! - [`cut`]: the pieces of letters; [`read_form`]: the two sides of a word.
//!
//! `specs/Forms.antt` has the definitions.
#![tactic(auto)]

mod copies;
mod cutting;
mod flags;
mod forms;
mod letters;
mod sharing;
mod table;

pub use cutting::cut;
pub use flags::encode;
pub use forms::read_form;
pub use letters::{Letter, characters, text_of};
pub use sharing::SharedTexts;
pub use table::DeclaredSymbols;

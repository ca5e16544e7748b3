//! From a lexc text to its lexicons, or its first fault (Beesley and Karttunen, Finite State Morphology, 2003, chapter 4).
//!
//! - [`read_lexc`]: what a text says. `Files.antt` of `lexc_grammar` has the definition.
//! - [`lexicons_are_sound`]: a law about what it says, as a contract (`specs/Sound.antt`).
//!
//! Inside, `gathering` has the tokens of an entry, to its `;`, `entries` its form and the lexicon that a path goes on in, or its first
//! fault (`specs/EntryAnswers.antt`), and `words` says which words begin a part of the text, and which may name a lexicon.
#![tactic(auto)]

mod closing;
mod entries;
mod gathering;
mod laws;
mod lexc;
mod state;
mod statements;
mod words;

pub use laws::lexicons_are_sound;
pub use lexc::read_lexc;

//! Lexicons as one automaton (Beesley and Karttunen, Finite State Morphology, 2003, chapter 4).
//!
//! - [`LexiconBuilder`]: the automaton of the tapes of all paths from the root (`specs/Paths.antt`), to which entries are given
//!   one by one. Flags are letters of it; `resolve` of flag_diacritics makes a transducer of it.
//! - [`LexEntry`], [`lexicon`]: the same of lists of entries, each of which has a network of its own.
//! - `words`, `steps`: how an entry that is a word is added, its front being shared (`specs/Built.antt`). `chains`: networks of one word.
//! - `blocks`: how any other entry is added (`specs/Blocks.antt`).
#![tactic(auto)]

mod blocks;
mod builder;
mod chains;
mod entry;
mod lexicons;
mod steps;
mod words;

pub use builder::LexiconBuilder;
pub use entry::LexEntry;
pub use lexicons::lexicon;

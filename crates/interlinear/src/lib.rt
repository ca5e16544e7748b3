//! Interlinear glosses: the words of a line, the table of glosses, and the block of a line.
//!
//! - [`words_of`]: the words of a line.
//! - [`GlossTable`]: the glosses of a file; [`GlossTable::gloss`] writes a text in them.
//! - [`block`]: words, analyses and glosses in columns, each column a [`Cell`]; [`Cell::found`]: that of a word, by what is
//!   found of it.
//! - [`one_block`]: the law that a line has one gloss.
//!
//! `specs/Words.antt`, `specs/Glosses.antt` and `specs/Blocks.antt` have the definitions, and `specs/Replies.antt` those of the
//! reply to a line.
#![tactic(auto)]

mod cells;
mod columns;
mod laws;
mod table;
mod words;

pub use columns::{Cell, block};
pub use laws::one_block;
pub use table::GlossTable;
pub use words::words_of;

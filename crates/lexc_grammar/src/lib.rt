//! What a lexc text says: its lexicons, or its first fault (Beesley and Karttunen, Finite State Morphology, 2003, chapter 4).
//!
//! - [`Keyword`], [`Stage`] and [`Ending`]: what words begin, where a statement stands, and how the tokens of an entry end.
//! - [`one_spelling`], [`one_reading`]: the laws that no two keywords are spelled alike, and that a text says one thing only, as
//!   contracts.
//!
//! `specs/Files.antt` has the definitions, on which the reader stands, and `specs/Laws.antt` the law of one reading.
#![tactic(auto)]

mod laws;
mod reading;
mod statements;

pub use laws::one_spelling;
pub use reading::one_reading;
pub use statements::{Ending, Keyword, Stage};

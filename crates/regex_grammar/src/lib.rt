//! The grammar of xfst expressions (Beesley and Karttunen, Finite State Morphology, 2003, chapters 2 and 3): definitions,
//! which the readers' contracts cite. In `specs/` stand the levels of the operators as trees, their spelling in tokens
//! and what they say (`Grammar.antt`), what it is that tokens are one expression (`Whole.antt`), and reading as a function
//! on tokens (`Reading.antt`); in `proofs/`, that each level is read exactly.
//!
//! - [`one_reading`]: the law that tokens are read in one way only.
#![tactic(auto)]

mod laws;

pub use laws::one_reading;

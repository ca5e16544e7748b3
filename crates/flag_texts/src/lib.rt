//! Flag diacritics as they are written (Beesley and Karttunen, Finite State Morphology, 2003, chapter 7).
//!
//! - [`read_flag`]: the flag that a text is, if it is one (`specs/Reading.antt`).
#![tactic(auto)]

mod reading;

pub use reading::read_flag;

//! The algebra of relations between words, as operations on transducers (Kaplan and Kay, Regular Models of
//! Phonological Rule Systems, 1994; Beesley and Karttunen, Finite State Morphology, 2003, section 2.3). `specs/Relation.antt` says
//! what a transducer relates, and each call's contract says of every two words whether the result relates them
//! (`specs/Relations.antt`).
//!
//! - [`identity`], [`cross`]: relations made of languages.
//! - [`inverse`]: the sides exchanged.
//! - [`upper`], [`lower`]: the language on a side.
//! - [`substituted`]: the words of a language with each letter replaced, left out or forbidden ([`Substitution`]).
#![tactic(auto)]

mod relations;
mod substitution;

pub use relations::{cross, identity, inverse, lower, upper};
pub use substitution::{Image, Substitution, substituted};

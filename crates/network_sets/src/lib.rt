//! What the operators of expressions make of languages alone, over the symbols of an alphabet and the edge of the word
//! (Beesley and Karttunen, Finite State Morphology, 2003, sections 2.3 and 2.4), composition, and prefixes and suffixes in rows of any
//! length.
//!
//! - [`language`]: a language over these letters.
//! - [`both`], [`minus`], [`ignore`], [`apply_prefix`], [`not_one`]: sets of words.
//! - [`compose`]: composition, which of languages is [`both`]. Conditions on the paths of one operand stay.
//! - [`restrict`]: the words in which each part that is in a language stands at an allowed place. Places are split
//!   words ([`Split`], of letters that [`every_split_letter`] lists), and [`in_context`] gives those in a context.
//! - [`apply_prefixes`], [`not_one_times`]: `~`, `$` and backslashes before a language.
//! - [`apply_suffixes`]: `*`, `+`, `^n`, `.u`, `.l`, `.i` and `.r` behind a network. Those that make nothing new take no step.
#![tactic(auto)]

mod composing;
mod conditional;
mod parts;
mod prefixes;
mod relations;
mod restricting;
mod sets;
mod suffixes;

pub use composing::compose;
pub use parts::{Split, every_split_letter};
pub use prefixes::{apply_prefixes, not_one_times};
pub use restricting::{in_context, restrict};
pub use sets::{apply_prefix, both, ignore, language, minus, not_one};
pub use suffixes::apply_suffixes;

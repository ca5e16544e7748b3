//! What the networks of a project's names are asked for: the AT&T text of one, and how two languages compare.
//!
//! - [`att`]: the AT&T text of a name, or why there is none (`specs/Texts.antt`).
//! - [`compared`]: how the languages of two names compare, by a [`Question`], or why they don't (`specs/Comparisons.antt`).
//! - [`Told`]: what is written, an answer or a refusal (`specs/Responses.antt`).
//!
//! Inside, `lines` makes the lines, `fields` tells whether the symbols may stand in an AT&T text, `languages` makes the languages of
//! networks, and `building` builds the networks of two names.
#![tactic(auto)]

mod building;
mod comparing;
mod fields;
mod languages;
mod lines;
mod texts;
mod told;

pub use comparing::compared;
pub use texts::att;
pub use told::{Question, Told};

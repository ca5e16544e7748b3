//! A project that is generated, and what is told of it: a lexicon of as many stems as wanted, each with a singular and a plural, the
//! rules that join them, and a text of four words a stem. Tools of the field are timed on such ones.
//!
//! - [`made_project`]: its files. [`made_text`]: the text.
//! - [`report`]: how many networks the project of so many stems has, how many words its text has, how many of these have one
//!   string, more or none when they are looked up upwards, and how many columns their analyses take, a line each.
//!
//! Inside, `words` has the words of a text, `networks` the network of a name, `told` what is found of a word, and `counts` the
//! sums. Read `specs/Generated.antt`, then `specs/Reports.antt`.
#![tactic(auto)]

mod counts;
mod networks;
mod project;
mod reporting;
mod stems;
mod text;
mod told;
mod words;

pub use project::{MOST_STEMS, made_project};
pub use reporting::report;
pub use text::made_text;

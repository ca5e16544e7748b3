//! What a look-up answers, as a value. `specs/Answers.antt` says for which answer of word_relations' `specs/Answers.antt` it
//! stands, and there it is said which answers are lawful.
//!
//! - [`Answer`]: an answer, which lists at most [`MOST_ANSWERS`] texts. [`Direction`]: which words a look-up gives.
//! - [`one_kind`]: the law that no two kinds of answer are lawful for one set of texts.
#![tactic(auto)]

mod answer;
mod direction;
mod laws;

pub use answer::{Answer, MOST_ANSWERS};
pub use direction::Direction;
pub use laws::one_kind;

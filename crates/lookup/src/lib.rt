//! Look-up: the words that a network relates to a word.
//!
//! - [`Net`]: a network, ready for look-ups.
//! - [`up`], [`down`]: the upper words of a lower word, and the lower words of an upper one, as an [`Answer`].
//!   lookup_walk's `specs/Nets.antt` says what a network relates, its `specs/Answering.antt` and word_relations' `specs/Answers.antt` which
//!   answer is lawful.
//! - [`one_kind`]: the law that no two kinds of answer are lawful for one word.
//!
//! Inside, the part of a network that a word reaches is a graph (`part`, `explored`): a list of edges ([`fsa::Edge`]) between nodes, and
//! a count of the nodes, which are numbers below it. Its words are the letters on the paths from `START` to `END`; an epsilon edge
//! has no letter. Where the network keeps flags, `conditions` makes them states of that graph. `kept` leaves the edges of such paths alone,
//! `turns` finds a loop that writes something, or that there is none, so that the words are finitely many; and then `texts` has them all,
//! sorted by their bytes, or finds that they are more than an answer lists.
#![tactic(auto)]

mod bytes;
mod conditions;
mod explored;
mod kept;
mod laws;
mod levels;
mod listing;
mod look;
mod part;
mod texts;
mod tree;
mod turns;
mod walk;

pub use laws::one_kind;
pub use look::{down, up};
pub use lookup_answers::Answer;
pub use lookup_walk::Net;

/// The node that paths come from.
pub(crate) const START: usize = 1;

/// The node that paths lead to.
pub(crate) const END: usize = 0;

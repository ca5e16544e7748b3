//! The bytes of replies: to a word that is looked up, and to a project that is loaded or edited.
//!
//! - [`answer`], [`symbol`], [`no_net`]: the replies to a word. `specs/Replies.antt` of reply_meaning has their
//!   bytes, and says which of them is lawful.
//! - [`accepted`], [`refused`]: the replies to a project and to an edit (`specs/Projects.antt`).
//! - [`short`]: the replies of one word at a version, each a [`Head`], which take no memory (`specs/Heads.antt`).
//! - [`batch`]: the replies of batches, each a [`BatchReply`], which take no memory (`specs/Batches.antt`).
//!
//! Each reply is whole: its lines, each with a newline. V is the number of a version, in decimal.
#![tactic(auto)]

mod batches;
mod heads;
mod projects;
mod words;

pub use batches::{BatchReply, batch};
pub use heads::{Head, short};
pub use projects::{accepted, refused};
pub use words::{answer, no_net, symbol};

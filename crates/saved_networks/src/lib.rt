//! Networks that were saved as AT&T text (AT&T FSM Library, the text format of its programs), and look-ups in them.
//!
//! - [`open`]: the network of a file's bytes, a [`SavedNetwork`], or the first fault of these, a [`SavedError`]. `specs/Faults.antt` says
//!   which fault is the first, and att_text's `specs/Paths.antt` what a text relates.
//! - [`SavedNetwork::reply_to`]: the reply to a word, by the symbols and the relation of the text (`specs/Replies.antt`).
//! - [`one_reply`]: the law that a line has one reply.
//! - [`refused`]: the line that tells a fault, by its [`SavedWhy`] (`specs/Refusals.antt`).
#![tactic(auto)]

mod faults;
mod laws;
mod network;
mod opening;
mod refusals;

pub use faults::{SavedError, SavedWhy};
pub use laws::one_reply;
pub use network::SavedNetwork;
pub use opening::open;
pub use refusals::refused;

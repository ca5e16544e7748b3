//! Look-ups in a project, for a program in C: a static library. include/morph.h is its header, and docs/EMBEDDING.md says how a program is built with it.
//!
//! - [`MorphProject`]: a project as C holds it, with what it has so far, a [`Held`]: files that are gathered, their first fault, or the project that they say; or the network of an AT&T text that one of them is, or its fault.
//! - `filling`: files are put into it, and it is opened, shared and closed.
//! - `asking`: words that are looked up or cut, texts that are glossed, the names, the fault. Each answers with bytes and a [`MorphReply`], which counts them.
//!
//! Every export answers with a number of `specs/Statuses.antt`. What the bytes are stands in the contracts of the calls that they come from: `reply_to_word` and `load` of
//! project_versions, `tokens` of fsm_base, `refused` of reply_text, and `open`, `reply_to` and `refused` of saved_networks. `specs/Tells.antt` says what a caller's buffer gets of them.
//!
//! Inside, `slot` is the memory behind a [`MorphProject`], `loose` a box taken apart, `replies` has the bytes, and `told` writes them.
#![tactic(auto)]

mod asking;
mod filling;
mod held;
mod loose;
mod project;
mod replies;
mod slot;
mod told;
mod trouble;

pub use asking::{
    morph_att_up, morph_cut, morph_down, morph_fault, morph_gloss, morph_names, morph_up,
};
pub use filling::{morph_close, morph_open, morph_open_att, morph_put, morph_share};
pub use held::{Held, Opened, SavedOwner, SavedRefusal};
pub use project::MorphProject;
pub use slot::{Inside, Slot};
pub use told::MorphReply;
pub use trouble::Trouble;

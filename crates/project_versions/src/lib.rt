//! Versions of a project: its files with a network for each of its names, and the changes that make one version of another.
//!
//! - [`load`]: the first version of sources, or why there is none.
//! - [`Version`]: its number, its files, its names with the kind and the definition of each, and the replies to words and texts in
//!   Normalization Form C. A lane is answered at it (`specs/Looks.antt`).
//! - [`reply_to_word`]: the reply to a word as it is written.
//! - [`one_reply_to_look`]: the law that a lane's line has one reply at a version.
//! - [`edit`]: the next version, which a list of edits makes, and the names that are rebuilt, as [`Edited`]; or why there is none,
//!   an [`EditError`].
//!
//! Inside, `networks` builds the network of each definition, `keeping` finds those that an old version has already, `rebuilt` lists the
//! names that a change touches, and `looks` answers what is asked as it is written, as the lines of a lane.
#![tactic(auto)]

mod edit_error;
mod editing;
mod keeping;
mod laws;
mod looks;
mod networks;
mod rebuilt;
mod version;

pub use edit_error::EditError;
pub use editing::{Edited, edit, load};
pub use laws::one_reply_to_look;
pub use looks::reply_to_word;
pub use version::Version;

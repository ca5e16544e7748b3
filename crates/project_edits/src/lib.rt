//! Edits of a project's files. Read `specs/Edits.antt` of project_sources first: when an edit is refused, what is held
//! after it, and what several edits make, one after another.
//!
//! - [`Edit`]: a whole file, lines in the place of others, or a file that is there no more.
//! - [`apply`]: the files after a list of edits, which share the contents of the others with those before; or why it is refused.
#![tactic(auto)]

mod applying;
mod edit;
mod files;
mod lines;

pub use applying::apply;
pub use edit::Edit;

//! Projects of sources: their versions, edits, and the replies to words.

pub use fsm_base::Text;
pub use lookup_answers::Direction;
pub use project_edits::Edit;
pub use project_model::Kind;
pub use project_sources::Sources;
pub use project_store::StoreError;
pub use project_versions::{EditError, Edited, Version, edit, load, reply_to_word};
pub use regex_ast::{Fault, Why};

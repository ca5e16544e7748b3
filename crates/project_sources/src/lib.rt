//! What sources say: the files of a project, the lines of its manifest, the definitions of the files that it names, and the first
//! fault; and edits of sources. Definitions, which the contracts of the crates above cite, and their laws. Read `specs/Rows.antt` and
//! `Lines.antt` of project_manifest, then `specs/Sources.antt` and `Faults.antt` here, in this order; then `Edits.antt`.
//!
//! - [`Sources`]: the files, by their names. A copy shares the contents.
//! - [`PlanError`]: the fault for which sources or an edit are refused; [`refused`] makes it.
//!
//! [`MOST_BYTES`], [`MOST_NAMES`] and [`MOST_SYMBOLS`] are the limits of a project. The other functions do nothing when they run: each
//! names a law, which its contract states.
//!
//! - [`one_fault`], [`one_answer`]: sources are one project, or have one first fault.
//! - [`one_table`]: sources that are a project have one table of glosses.
//! - [`projects_are_sound`]: without a fault names end, and weigh little.
//! - [`no_files_no_project`]: without files the manifest is missing.
//! - [`centres_come_last`]: an empty centre is the fault where none is read before.
//! - [`one_outcome`]: edits make one thing of what is held, or have one fault.
//! - [`expressions_are_built`], [`lexicons_are_built`], [`grammars_are_built`], [`bodies_are_built`]: what texts say is compiled
//!   (`specs/Built.antt`): no insertion stands beside another mapping, no symbol is an empty text, and no name stands where only
//!   symbols do.
#![tactic(auto)]

mod built;
mod laws;
mod limits;
mod plan_error;
mod sources;

pub use built::{bodies_are_built, expressions_are_built, grammars_are_built, lexicons_are_built};
pub use laws::{
    centres_come_last, no_files_no_project, one_answer, one_fault, one_outcome, one_table,
    projects_are_sound,
};
pub use limits::{MOST_BYTES, MOST_NAMES, MOST_SYMBOLS};
pub use plan_error::{PlanError, refused};
pub use sources::Sources;

//! A project's plan: its definitions and its alphabet, or its first fault.
//!
//! - [`Sources`]: the files of a project, of xfst, lexc, twolc and glosses. [`read_project`]: their plan, a [`Plan`] of
//!   [`Definition`]s with its glosses.
//! - [`Manifest`], [`read_manifest`]: the files that a project names, further symbols, and names that must be defined.
//!   [`manifest_of`]: the same by the content of a file.
//! - [`PlanError`]: why there is no plan. [`Kind`]: whether a definition is a language or a relation.
#![tactic(auto)]

mod content;
mod files;
mod gathered;
mod names;
mod plan;
mod read;
mod symbols;
mod unknown;
mod written;

pub use expr_kinds::Kind;
pub use plan::Plan;
pub use project_definitions::{Body, Definition, Demand};
pub use project_manifest::{Manifest, read_manifest};
pub use project_sources::{PlanError, Sources};
pub use read::{manifest_of, read_project};
pub use written::WrittenDefine;

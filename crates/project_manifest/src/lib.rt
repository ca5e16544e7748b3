//! The manifest of a project: its lines, each of which names a file, further symbols of the alphabet, or names that must be
//! defined.
//!
//! - [`read_manifest`]: the [`Manifest`] of a text, a list of [`ManifestLine`]s with their [`Declaration`]s, or its first fault.
//! - [`is_file_name`]: whether a manifest may name a file so; [`is_manifest_name`]: whether that is its own name.
#![tactic(auto)]

mod declarations;
mod file_names;
mod keywords;
mod manifest;
mod said;
mod words;

pub use declarations::Declaration;
pub use file_names::{is_file_name, is_manifest_name};
pub use manifest::{Manifest, ManifestLine, read_manifest};

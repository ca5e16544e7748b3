//! Permits for building networks, and levels of jobs that run at once.
//!
//! - [`Forge`]: makes [`Permit`]s, each for the network of one name in one version, and keeps an [`Issue`] of each. Contracts see its room,
//!   which is how many permits it can make without asking for memory, and its issues. Code that is generic in its forge can make a
//!   permit only by asking the forge for it, so whoever asks for a permit to build a network counts the networks that are built.
//! - [`LogForge`]: a forge that keeps its issues in a list. It alone makes a [`LogPermit`].
//! - [`Job`]: work that is done once, in some thread. Its ghost member `gives` says what the work promises of its result.
//! - [`run_level`]: the results of jobs that don't depend on one another, in the jobs' order, whatever the schedule.
//! - [`Gate`]: what each job enters before it works and leaves afterwards. [`OpenGate`] does nothing.
#![tactic(auto)]

mod forge;
mod gate;
mod issue;
mod job;
mod level;
mod log_forge;

pub use forge::{Forge, Permit};
pub use gate::{Gate, OpenGate};
pub use issue::Issue;
pub use job::Job;
pub use level::run_level;
pub use log_forge::{LogForge, LogPermit};

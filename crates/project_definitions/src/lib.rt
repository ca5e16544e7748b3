//! The definitions of a project, their leaves resolved.
//!
//! - [`Definition`], [`Body`]: a definition, and what a name stands for.
//! - [`order_in`]: the places of definitions, each behind those that it refers to. [`forms_of`]: what each definition is by its
//!   form. [`first_failing`]: the first definition that doesn't meet a [`Demand`].
//!
//! Read `specs/Plain.antt`, `specs/Referring.antt`, `specs/Forms.antt` and `specs/Demands.antt`.
#![tactic(auto)]

mod definition;
mod demands;
mod entries;
mod forms;
mod grammars;
mod references;

pub use definition::{Body, Definition};
pub use demands::{Demand, first_failing};
pub use forms::forms_of;
pub use references::order_in;

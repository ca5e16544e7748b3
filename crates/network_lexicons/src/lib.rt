//! The network of the lexicons of a lexc file (Beesley and Karttunen, Finite State Morphology, 2003, chapters 4 and 7).
//!
//! - [`network_of_lexicons`]: the network of the two sides of each path from the lexicon `Root` on which the flags of each
//!   side pass. What lexicons relate is defined in project_meaning (`specs/Lexicons.antt`).
//! - `tapes`: the two sides of an entry as one tape. `forms`: what an entry adds. `entries`: the entries of all lexicons,
//!   which are given to one automaton (lexc_compile). `names`: places of lexicons. `flags`: numbers of flags. `small`: that
//!   automaton, made small, and the transducer that is left of it without flags, straightened. `passing`: its network, whose
//!   flags are states or conditions.
#![tactic(auto)]

mod build;
mod entries;
mod flags;
mod forms;
mod names;
mod passing;
mod small;
mod tapes;

pub use build::network_of_lexicons;

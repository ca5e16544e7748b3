//! The program as one call over a folder, an input, an output and lanes. Read `specs/Ends.antt` first, and then `Beside.antt`.
//!
//! - [`run`]: answers the words of a command line, with its status. [`run_alone`]: the same for words that lanes have no part in.
//! - [`Lane`]: an input and an output, whose lines are answered beside the commands of an editor.
//! - [`read_words`]: the [`Command`] of the words, or why there is none, a [`WordsError`].
//!
//! Inside, `words` reads the command line, and `alone` does what it asks for, as `naming`, `pairing` and `saved` do for names, strings of pairs and saved
//! networks. `load` reads the files of the folder's project, whose networks project_store builds, `look_up` answers one line of the input, `session` all of
//! them (`answering`), those that were read already together (`ahead`), and `saying` writes what ends a run.
#![tactic(auto)]

mod ahead;
mod alone;
mod answering;
mod load;
mod look_up;
mod naming;
mod pairing;
mod program;
mod saved;
mod saying;
mod session;
mod words;

pub use alone::run_alone;
pub use editor_session::Lane;
pub use program::run;
pub use words::{Command, WordsError, read_words};

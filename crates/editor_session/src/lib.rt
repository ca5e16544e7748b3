//! A session of an editor, alone or beside lanes: the commands of an input, each answered on an output, where each accepted change
//! makes the next version, an edit by itself or all edits of a batch, and the lines of up to sixteen other inputs, which are looked up in these versions meanwhile. Read
//! `specs/Sessions.antt` first: what the output got, by how the answering ended; then `specs/Live.antt`. What commands are replied
//! is said by editor_meaning.
//!
//! - [`EditorSession`]: answers all commands of an input, and publishes the version that each accepted change makes on a board.
//! - [`loaded_line`]: the first line of the output.
//! - [`serve`]: answers an editor and lanes. [`Lane`]: an input and an output of a lane.
//!
//! Inside, `payload` reads the lines that follow a command, `request` reads a command with them, `batches` holds edits (of their bytes no
//! more than `specs/Keeping.antt` says), `reply` makes the reply to a command and the version that it leaves, and `session` goes from command to command. `seating` gives each lane its seat, `working` runs the editor
//! beside the lanes, and `endings` says how several endings end a run.
#![tactic(auto)]

mod batches;
mod endings;
mod live;
mod payload;
mod reply;
mod request;
mod seating;
mod session;
mod working;

pub use batches::Batch;
pub use live::{Lane, serve};
pub use session::{EditorSession, loaded_line};

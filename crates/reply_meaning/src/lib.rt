//! What a look-up line is answered, by what a project's names mean, and what an output gets for an input: definitions,
//! which the contracts of the crates above cite, and their laws. Read `specs/Replies.antt` and `Transcripts.antt`, in this order.
//!
//! - [`Ending`]: how the answering of an input ended, of which transcripts speak.
//! - [`one_reply`], [`one_transcript`]: the laws that a line has one reply, and that lines have one transcript.
//! - [`without_return`]: a line without a carriage return at its end.
#![tactic(auto)]

mod ending;
mod laws;
mod line;

pub use ending::Ending;
pub use laws::{one_reply, one_transcript};
pub use line::without_return;

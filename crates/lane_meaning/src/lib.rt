//! What a lane's output gets for its input, over the values that are published beside it: definitions, which the contracts of
//! the crates above cite, and their laws. Read `specs/Lanes.antt` and then `Laws.antt`.
//!
//! - [`Replying`]: what lines are answered at, which says what is a reply.
//! - [`is_mark`]: whether a line is the mark behind which a lane is answered at the last value.
//! - [`lane_grows`], [`numbers_never_fall`], [`enters_for_each`], [`behind_is_last`]: laws, whose functions do nothing when they run.
#![tactic(auto)]

mod laws;
mod mark;
mod replying;

pub use laws::{behind_is_last, enters_for_each, lane_grows, numbers_never_fall};
pub use mark::is_mark;
pub use replying::Replying;

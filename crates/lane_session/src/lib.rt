//! Lanes: lines of inputs that are answered on outputs, at values that are published meanwhile. Read lane_meaning first, then
//! `specs/Running.antt` for one lane, and `specs/Lanes.antt` for lanes that are answered each in a thread of its own, while another
//! thread publishes values.
//!
//! - [`Answers`]: a value that lines are answered at, each with a [`Reply`].
//! - [`LaneSession`]: a lane's seat and its lines. [`LaneSession::answer_beside`] answers the lines up to the mark, each at the
//!   value that the seat takes up for it, and [`LaneSession::answer_rest`] those behind it.
//! - [`Stop`]: why a lane stopped.
//! - [`Lane`]: an input and an output, and what the lane works with: a seat from which its lines are answered.
//! - [`answer_beside`], [`learn_all`], [`answer_rest`]: what all lanes do, first while values are published, then when no more are.
#![tactic(auto)]

mod answers;
mod lane;
mod lanes;
mod sending;
mod session;
mod work;

pub use answers::{Answers, Reply};
pub use lane::Lane;
pub use lanes::{answer_beside, answer_rest, learn_all};
pub use session::{LaneSession, Stop};

//! What an editor's output gets for its input: definitions, which the contracts of the crates above cite, and their laws. Read
//! `specs/Orders.antt` and `Batches.antt`, and then `Editing.antt`; the laws stand in `Laws.antt` and `OneTranscript.antt`.
//!
//! The functions do nothing when they run: each names a law, which its contract states.
//!
//! - [`one_reading`]: lines are one list of orders.
//! - [`one_reply_to_order`]: an order has one reply, but for want of memory. Of a look-up reply_meaning says it.
//! - [`one_turn`], [`look_ups_change_nothing`]: an order also makes one version or none, and a look-up none.
//! - [`one_loaded`], [`one_transcript`]: files are one version, and from a version on lines have one transcript, but for want of
//!   memory and for which loop a look-up shows.
//! - [`refused_makes_none`], [`numbers_count`]: which versions there are.
#![tactic(auto)]

mod laws;

pub use laws::{
    look_ups_change_nothing, numbers_count, one_loaded, one_reading, one_reply_to_order,
    one_transcript, one_turn, refused_makes_none,
};

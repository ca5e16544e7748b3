//! A board of published values: an editor releases one after another, and seats in other threads take up the latest one without
//! waiting. Contracts see the values that a part of a board knows, in order, and which board it is. `specs/Boards.antt` says
//! which events of the live machine (live_core) the calls are.
//!
//! - [`open`]: a board of a first value, with its [`Editor`] and its [`Seat`]s.
//! - [`Editor::release`]: the next value. [`Editor::close`]: no more values; the [`Closed`] editor gives [`Note`]s of all of
//!   them.
//! - [`Seat::enter`]: the seat takes up what is published. [`Seat::learn`]: it takes up the last value of a closed board.
//!   [`Seat::value`], [`Seat::seen`]: the value that it has, and its number.
//! - [`Release`]: what can be published: a value that has a number.
//!
//! Inside, `history` has what is published: values in order, and then that it is closed (`specs/Histories.antt`). Proofs alone see the
//! values; at run time a history is one number, its length. A `History` is what adds to it, a `Beginning` has values with which it
//! began, as they were seen at some time, and a `Whole` all values of one that was closed.
#![tactic(auto)]

mod board;
mod editor;
mod history;
mod law;
mod page;
mod release;
mod rule;
mod seat;
mod steps;

pub use board::open;
pub use editor::{Closed, ClosedOf, Editor, EditorOf, Note};
pub use release::Release;
pub use seat::Seat;

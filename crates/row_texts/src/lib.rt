//! The texts of rows, which are data of programs that try others: bytes on one line.
//!
//! - [`undone`]: the bytes that a text with escapes stands for.
//! - [`shown`]: bytes with escapes, cut off where there are many.
//! - [`add_row`], [`add_line`]: what is told of rows, line by line.
#![tactic(auto)]

mod escapes;
mod showing;

pub use escapes::undone;
pub use showing::{add_line, add_row, shown};

//! Words of marks, by which a network of replacement is built (Kaplan and Kay, Regular Models of Phonological Rule
//! Systems, 1994, whose rules put brackets round what they rewrite; Karttunen, The Replace Operator, 1995). Such a word
//! holds the upper and the lower word of a replacement together, as one word of an automaton: a symbol that is copied is
//! one mark, and a replacement stands between an opening and a closing mark, the centre's symbols first.
//!
//! What a set of rules relates is defined over pieces (expr_meaning, `specs/Replacement.antt`). Pieces are written in
//! marks by `specs/Written.antt`, each replacement by a mapping's number, and the two sides of what is written are the
//! two words of the pieces.
//!
//! - [`Mark`]: a mark, and its symbol on each side.
//! - [`marks_of`]: all marks of some symbols and mappings.
//! - [`written_keeps_sides`], [`written_is_over_marks`]: laws of pieces written in marks. They do nothing when they run.
#![tactic(auto)]

mod laws;
mod marks;

pub use laws::{written_is_over_marks, written_keeps_sides};
pub use marks::{Mark, marks_of};

//! Words of marks, which hold the upper and the lower word of a rewriting together (Kaplan and Kay, Regular Models of
//! Phonological Rule Systems, 1994, whose rules put brackets round what they rewrite; Karttunen, The Replace Operator, 1995).
//! A symbol that is copied is one mark, and a replacement stands between an opening and a closing bracket with the number of
//! the place of the rules by which it is made. A place is a context, or a group of rules without contexts; all rules of a
//! group share the brackets of its places, so that there are few marks.
//!
//! Read `specs/Places.antt` (what places are and what they rewrite) and `specs/Marked.antt` (which words of marks keep the rules).
//!
//! - [`Mark`]: a mark, and its symbol on each side.
//! - `specs/Laws.antt`: places relate the two sides of the words of marks that keep their rules, and nothing else. The contract of
//!   `replace` (replace_rules) rests on it.
#![tactic(auto)]

mod marks;

pub use marks::Mark;

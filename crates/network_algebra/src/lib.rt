//! Networks, as the operators of expressions make them of networks (Beesley and Karttunen, Finite State Morphology, 2003,
//! section 2.3). Read `specs/Networks.antt` first.
//!
//! - [`Network`]: the automaton of a language or the transducer of a relation, on whose paths conditions may stand (fst_flagged).
//!   [`union`], [`inverse`] and [`reduced`] leave these as they are; what else needs a plain transducer makes states of them.
//! - [`word`]: the automaton of leaves side by side.
//! - [`concat`], [`union`], [`repeat`]: of languages and of relations; a language beside a relation stands for its
//!   identity.
//! - [`reduced`]: a smaller network that is the same. Rows are joined by [`concat`] and [`union`], which leave what they
//!   make as it is, and reduced once; every other operator reduces what it makes.
//! - [`straight`], [`straightened`]: a transducer with one path for each list of pairs, where few steps make it.
//! - [`upper`], [`lower`], [`inverse`], [`reverse`], [`cross`]: what turns one kind into the other, or the sides.
#![tactic(auto)]

mod crossing;
mod joining;
mod letters;
mod network;
mod operands;
mod optional;
mod rational;
mod relations;
mod renaming;
mod repeating;
mod sides;
mod straightening;
mod words;

pub use joining::{concat, reduced, union};
pub use letters::{every_letter, inner_letters, inside, with_edge};
pub use network::Network;
pub use operands::{Operands, alike};
pub use renaming::{Renaming, renamed};
pub use repeating::{Times, repeat};
pub use sides::{cross, inverse, lower, reverse, upper};
pub use straightening::{a_little_more, straight, straightened};
pub use words::word;

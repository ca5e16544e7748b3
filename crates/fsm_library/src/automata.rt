//! Automata, and languages over a list of letters.

pub use fsa::{Dfa, Edge, Fsa};
pub use fsa_minimal::minimal;
pub use fsa_partial::{fewest_states, is_minimal};
pub use fsa_product::{both, complement, is_empty, minus, shortest};
pub use fsa_rational::{concat, image, preimage, reverse, star, union, without_empty};
pub use fsa_subset::determine;
pub use fsm_base::{Bound, Letter, Sym};
pub use lang_algebra::{Lang, one_letter};

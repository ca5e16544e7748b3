//! Words over an alphabet and sets of words: definitions alone, which the contracts of the crates
//! above cite. They stand in `specs/`, and the laws over them in `proofs/`.
#![tactic(auto)]

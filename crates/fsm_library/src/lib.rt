//! What another Rust program calls: automata and transducers by themselves, or the look-ups of a project of sources. This crate only
//! hands on; each call's contract says what it gives, and stands in the crate that it comes from. The crate library_example shows
//! both uses.
//!
//! - [`automata`]: automata over letters of any kind (`fsa::Fsa`), complete ones (`Dfa`), and languages over a list of letters
//!   (`Lang`); their union, concatenation, repetition, intersection, difference, complement, a shortest word, the automaton with the
//!   fewest states, complete (`minimal`) or without states that lead nowhere (`fewest_states`).
//! - [`transducers`]: relations between words of symbols: composition, cross product, inverse, the two sides; and look-up in them, once
//!   they are made ready as a `Net`.
//! - [`projects`]: the files of a project (`Sources`), its first version (`load`), edits (`edit`), and the replies to words.
//!
//! Every call that allocates is given the allocator first, and its only error is want of memory, but where it says otherwise. Building
//! takes time and memory that the sources decide: `determine` and the operations of `Lang` may make exponentially many states, and
//! `load` builds every network of a project. A look-up touches only what its word reaches.
#![tactic(auto)]

pub mod automata;
pub mod projects;
pub mod transducers;

//! What the tokens of a twolc text say: definitions, which the reader's contract cites (Koskenniemi, Two-level
//! Morphology, 1983; the notation of Karttunen and Beesley, Two-Level Rule Compiler, 1992). In `specs/` stand atoms and what
//! they may be (`Atoms.antt`), expressions over pairs (`Expressions.antt`), the statements (`Statements.antt`), how they make
//! a grammar or give the first fault (`Sections.antt`), and the forms of a grammar: which expressions stand in it, and what its rules are
//! about (`Forms.antt`).
//!
//! - [`one_reading`]: the law that a text says one thing only.
//! - [`grammars_are_formed`]: the law that the grammar of a text has these forms.
#![tactic(auto)]

mod forms;
mod laws;

pub use forms::grammars_are_formed;
pub use laws::one_reading;

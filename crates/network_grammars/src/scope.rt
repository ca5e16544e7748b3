use fsa::Fsa;
use fsm_base::{Bound, Sym};
use grammar_pairs::{NameTable, PairTable, SymbolSet};

/// What the leaves of a grammar's expressions stand for.
#[derive(Drop)]
pub struct Scope {
    /// The feasible pairs.
    pub pairs: PairTable,
    /// Their numbers.
    pub numbers: Vec<Sym>,
    /// The sets, by their names.
    pub sets: NameTable<SymbolSet>,
    /// The automata of definitions over the numbers of pairs, by their names.
    pub definitions: NameTable<Fsa<Bound<Sym>>>,
}

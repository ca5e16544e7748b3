use fsm_base::Pair;

/// A string of pairs, and where its letters stand among those of the automata.
#[derive(Drop)]
pub struct Spelled<'a> {
    /// The string.
    pub word: &'a [Pair],
    /// The place of the edge, and then those of the pairs.
    pub forwards: Vec<usize>,
    /// The place of the edge, and then those of the pairs from the last to the first.
    pub backwards: Vec<usize>,
}

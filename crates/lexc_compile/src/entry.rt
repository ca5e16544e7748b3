use flag_diacritics::Tape;
use fsa::Fsa;

/// An entry of a lexicon.
#[derive(Debug, Drop)]
pub struct LexEntry {
    /// The tapes of which a path through the entry takes one.
    pub net: Fsa<Tape>,
    /// The lexicon that the path goes on in, by its place among the lexicons, counted from 0; `None` is its end.
    pub next: Option<u32>,
}

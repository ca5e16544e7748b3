use fsm_base::Text;

/// The most texts that an answer lists.
pub const MOST_ANSWERS: usize = 4096;

/// What a look-up answers.
#[derive(Debug, Drop)]
pub enum Answer {
    /// All related texts, each once and in the order of their bytes. There are up to [`MOST_ANSWERS`].
    Strings(Vec<Text>),
    /// There are finitely many related texts, and more than [`MOST_ANSWERS`].
    More,
    /// There are related texts without end: `before`, then `round` any number of times, then `after`. The round
    /// is not empty.
    Loop {
        before: Text,
        round: Text,
        after: Text,
    },
}

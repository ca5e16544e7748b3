/// What is asked of two languages.
#[derive(Clone, Copy, Debug, PartialEq, Eq)]
pub enum Question {
    /// Whether they have the same words.
    Equal,
    /// Whether each word of the first is in the second.
    Within,
}

/// What is written of the networks of names: whole lines, each with its newline.
#[derive(Debug, Drop)]
pub enum Told {
    /// What was asked for.
    Answer(Vec<u8>),
    /// The line that says why there is no answer.
    Refusal(Vec<u8>),
}

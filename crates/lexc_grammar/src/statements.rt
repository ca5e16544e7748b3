/// A word that begins a part of the text, where it is the first word of a statement.
#[derive(Clone, Copy, Debug, PartialEq, Eq)]
pub enum Keyword {
    /// `Multichar_Symbols`, before the declared symbols.
    Symbols,
    /// `LEXICON`, before a name and the entries of its lexicon.
    Lexicon,
    /// `END`, behind which nothing is read.
    End,
}

/// Where a statement stands.
#[derive(Clone, Copy, Debug, PartialEq, Eq)]
pub enum Stage {
    /// At the beginning of the text.
    Beginning,
    /// Among the declared symbols.
    InSymbols,
    /// In a lexicon.
    InLexicon,
}

/// How the tokens of an entry end.
#[derive(Clone, Copy, Debug, PartialEq, Eq)]
pub enum Ending {
    /// Before a `;`.
    Ended,
    /// With the text.
    Unended,
    /// At a place where no token begins.
    Broken {
        /// The line of the place.
        line: u32,
    },
}

ghost use Rattle.std.specs.Prelude.{◌≡◌};
ghost use Rattle.regex_tokens.specs.Bytes.{begins_comment};

/// What begins a comment, which goes to the end of its line.
#[derive(Clone, Copy, Debug, PartialEq, Eq)]
pub enum Comments {
    /// `!` and `#`, as in a file of definitions.
    OfDefinitions,
    /// `!` alone, as in the entry of a lexicon.
    OfEntries,
}

impl Comments {
    /// Whether a byte begins a comment.
    pub fn begin_with(self, byte: u8) -> bool
        ensures { result ≡ begins_comment self byte }
    {
        match self {
            Comments::OfDefinitions => byte == b'!' || byte == b'#',
            Comments::OfEntries => byte == b'!',
        }
    }
}

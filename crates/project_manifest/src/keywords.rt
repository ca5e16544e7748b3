ghost use Rattle.std.specs.Prelude.{◌≡◌};
ghost use Rattle.std.specs.Str.{bytes_eq};
ghost use Rattle.project_manifest.specs.Lines.{keyword_of};

/// The first word of a line of a manifest.
#[derive(Clone, Copy, Debug, PartialEq, Eq)]
pub enum Keyword {
    /// `lexc`.
    Lexc,
    /// `twolc`.
    Twolc,
    /// `xfst`.
    Xfst,
    /// `alphabet`.
    Alphabet,
    /// `require`.
    Require,
    /// `gloss`.
    Gloss,
}

/// Whether a word is written so.
fn is_written(word: &[u8], text: &str) -> bool
    ensures { result ≡ bytes_eq word.now text.now }
{
    word == text.as_bytes()
}

/// The keyword that a word is, or `None` where it is none.
pub fn keyword_of(word: &[u8]) -> Option<Keyword>
    ensures { result ≡ keyword_of word.now }
{
    if is_written(word, "lexc") {
        Some(Keyword::Lexc)
    } else if is_written(word, "twolc") {
        Some(Keyword::Twolc)
    } else if is_written(word, "xfst") {
        Some(Keyword::Xfst)
    } else if is_written(word, "alphabet") {
        Some(Keyword::Alphabet)
    } else if is_written(word, "require") {
        Some(Keyword::Require)
    } else if is_written(word, "gloss") {
        Some(Keyword::Gloss)
    } else {
        None
    }
}

ghost use Rattle.std.specs.Prelude.{◌≡◌};
ghost use Rattle.regex_tokens.specs.Spelling.{spelling};

use fsm_base::Text;
use std::marker::Model;

/// A token that is spelled in one way, but for the blanks that may stand in [`Operator::Insertion`].
#[derive(Clone, Copy, Debug, PartialEq, Eq)]
pub enum Operator {
    /// `[`.
    OpenSquare,
    /// `]`.
    CloseSquare,
    /// `(`.
    OpenRound,
    /// `)`.
    CloseRound,
    /// `(->)`.
    Optional,
    /// `->`.
    Arrow,
    /// `@->`.
    LeftLongest,
    /// `@>`.
    LeftShortest,
    /// `->@`.
    RightLongest,
    /// `>@`.
    RightShortest,
    /// `=>`.
    Only,
    /// `||`.
    UpUp,
    /// `|`.
    Bar,
    /// `//`.
    LowUp,
    /// `/`.
    Slash,
    /// `\\`.
    UpLow,
    /// `\/`.
    LowLow,
    /// `\`.
    Backslash,
    /// `&`.
    Ampersand,
    /// `-`.
    Minus,
    /// `~`.
    Tilde,
    /// `$`.
    Dollar,
    /// `*`.
    Star,
    /// `+`.
    Plus,
    /// `^`.
    Caret,
    /// `:`.
    Colon,
    /// `;`.
    Semicolon,
    /// `,,`.
    GroupComma,
    /// `,`.
    Comma,
    /// `?`.
    Question,
    /// `_`.
    Underscore,
    /// `...`.
    Dots,
    /// `.x.`.
    CrossWith,
    /// `.o.`.
    Then,
    /// `.u`.
    Upper,
    /// `.l`.
    Lower,
    /// `.i`.
    Inverse,
    /// `.r`.
    Reverse,
    /// `.#.`.
    Edge,
    /// `[..]`, also written `[.`, one or more blanks, `.]`.
    Insertion,
}

/// The characters between two braces, escapes undone, each as a text.
///
/// Contracts see them as the list of their texts.
#[derive(Debug, Drop)]
pub struct Letters {
    /// The texts, each of one character.
    inner: Vec<Text>,
}

impl Model for Letters {
    ghost use Rattle.std.specs.Prelude.{List, ℕ};

    ghost Value = { List (List ℕ) };

    ghost view = { λ l. l.inner.items };
}

impl Letters {
    /// The texts, in the order in which they stand.
    pub fn texts(&self) -> &[Text]
        ensures { result.now ≡ self.now }
    {
        &self.inner
    }

    /// The same texts, with no copy.
    pub fn into_texts(self) -> Vec<Text>
        ensures { result.items ≡ self }
    {
        self.inner
    }
}

/// Takes texts over, with no copy.
impl From<Vec<Text>> for Letters {
    ghost from_gives = { λ texts letters. letters ≡ texts.items };

    fn from(inner: Vec<Text>) -> Letters {
        Letters { inner }
    }
}

/// A run with its escapes undone.
#[derive(Debug, Drop)]
pub struct Run {
    /// The text.
    pub text: Text,
    /// Whether an escape stood in it.
    pub escaped: bool,
}

/// A token of an xfst text.
#[derive(Debug, Drop)]
pub enum Token {
    /// A token that is spelled in one way.
    Operator(Operator),
    /// `".."`, the text between the quotes.
    Quoted(Text),
    /// `{..}`, the characters between the braces.
    Braced(Letters),
    /// A run of characters that stand for themselves or are escaped by `%`.
    Run(Run),
}

/// Where a token stands.
#[derive(Clone, Copy, Debug, PartialEq, Eq)]
pub struct Place {
    /// The line of its first character, counted from 1.
    pub line: u32,
    /// Whether a blank or a comment stands before it.
    pub apart: bool,
}

/// How the tokens of a text end.
#[derive(Clone, Copy, Debug, PartialEq, Eq)]
pub enum Ending {
    /// With the text.
    Whole,
    /// At a place where no token begins.
    NoToken {
        /// The line of the place, counted from 1.
        line: u32,
    },
}

/// The tokens of a text up to its end, or up to the first place where none begins.
#[derive(Debug, Drop)]
pub struct Tokens {
    /// The tokens, in their order.
    pub tokens: Vec<Token>,
    /// The place of each of them.
    pub places: Vec<Place>,
    /// How they end.
    pub ending: Ending,
}

impl Operator {
    /// How it is spelled, with no blanks.
    pub fn spelling(self) -> &'static str
        ensures { result.now ≡ spelling self }
    {
        match self {
            Operator::OpenSquare => "[",
            Operator::CloseSquare => "]",
            Operator::OpenRound => "(",
            Operator::CloseRound => ")",
            Operator::Optional => "(->)",
            Operator::Arrow => "->",
            Operator::LeftLongest => "@->",
            Operator::LeftShortest => "@>",
            Operator::RightLongest => "->@",
            Operator::RightShortest => ">@",
            Operator::Only => "=>",
            Operator::UpUp => "||",
            Operator::Bar => "|",
            Operator::LowUp => "//",
            Operator::Slash => "/",
            Operator::UpLow => "\\\\",
            Operator::LowLow => "\\/",
            Operator::Backslash => "\\",
            Operator::Ampersand => "&",
            Operator::Minus => "-",
            Operator::Tilde => "~",
            Operator::Dollar => "$",
            Operator::Star => "*",
            Operator::Plus => "+",
            Operator::Caret => "^",
            Operator::Colon => ":",
            Operator::Semicolon => ";",
            Operator::GroupComma => ",,",
            Operator::Comma => ",",
            Operator::Question => "?",
            Operator::Underscore => "_",
            Operator::Dots => "...",
            Operator::CrossWith => ".x.",
            Operator::Then => ".o.",
            Operator::Upper => ".u",
            Operator::Lower => ".l",
            Operator::Inverse => ".i",
            Operator::Reverse => ".r",
            Operator::Edge => ".#.",
            Operator::Insertion => "[..]",
        }
    }
}

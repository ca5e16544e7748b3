ghost use Rattle.std.specs.Prelude.{◌≡◌};
ghost use Rattle.twolc_tokens.specs.Spelling.{spelling};

use fsm_base::Text;
use regex_ast::RuleKind;
use regex_tokens::Ending;

/// A token that is spelled in one way.
#[derive(Clone, Copy, Debug, PartialEq, Eq)]
pub enum Operator {
    /// `[`.
    OpenSquare,
    /// `]`.
    CloseSquare,
    /// `(`.
    OpenRound,
    /// `)`.
    CloseRound,
    /// `|`.
    Bar,
    /// `&`.
    Ampersand,
    /// `-`.
    Minus,
    /// `/`.
    Slash,
    /// `=>`, `<=`, `<=>` or `/<=`, by the kind of the rules in which it stands.
    Arrow(RuleKind),
    /// `~`.
    Tilde,
    /// `\`.
    Backslash,
    /// `$`.
    Dollar,
    /// `*`.
    Star,
    /// `+`.
    Plus,
    /// `^`.
    Caret,
    /// `?`.
    Question,
    /// `.#.`.
    Edge,
    /// `;`.
    Semicolon,
    /// `_`.
    Underscore,
    /// `=`.
    Equals,
}

/// A token of a twolc text.
#[derive(Debug, Drop)]
pub enum Token {
    /// A token that is spelled in one way.
    Operator(Operator),
    /// `".."`, the text between the quotes, which is the name of a rule.
    Quoted(Text),
    /// An atom `X`, `X:`, `:Y`, `X:Y` or `:`, as it is written.
    Atom(Text),
}

/// A token and where it stands.
#[derive(Debug, Drop)]
pub struct Placed {
    /// The token.
    pub token: Token,
    /// The line in which it begins, counted from 1.
    pub line: u32,
}

/// The tokens of a text up to its end, or up to the first place where none begins.
#[derive(Debug, Drop)]
pub struct Tokens {
    /// The tokens, in their order.
    pub tokens: Vec<Placed>,
    /// How they end.
    pub ending: Ending,
}

impl Operator {
    /// How it is spelled.
    pub fn spelling(self) -> &'static str
        ensures { result.now ≡ spelling self }
    {
        match self {
            Operator::OpenSquare => "[",
            Operator::CloseSquare => "]",
            Operator::OpenRound => "(",
            Operator::CloseRound => ")",
            Operator::Bar => "|",
            Operator::Ampersand => "&",
            Operator::Minus => "-",
            Operator::Slash => "/",
            Operator::Arrow(RuleKind::Only) => "=>",
            Operator::Arrow(RuleKind::Must) => "<=",
            Operator::Arrow(RuleKind::Both) => "<=>",
            Operator::Arrow(RuleKind::Never) => "/<=",
            Operator::Tilde => "~",
            Operator::Backslash => "\\",
            Operator::Dollar => "$",
            Operator::Star => "*",
            Operator::Plus => "+",
            Operator::Caret => "^",
            Operator::Question => "?",
            Operator::Edge => ".#.",
            Operator::Semicolon => ";",
            Operator::Underscore => "_",
            Operator::Equals => "=",
        }
    }
}

ghost use Rattle.std.specs.Prelude.{◌≡◌, ◌<◌, ◌-◌, ◌^◌, map};
ghost use Rattle.regex_reader.specs.Brackets.{nests_too_deep, open_behind, open_round};
ghost use Rattle.regex_reader.specs.Files.{bracket_of, is_too_deep};

use regex_parser::MOST_OPEN;
use regex_tokens::{Operator, Token};

/// What a token is among brackets.
#[derive(Clone, Copy, Debug, PartialEq, Eq)]
pub enum Bracket {
    /// It opens one.
    Opening,
    /// It closes one.
    Closing,
    /// It is none.
    Neither,
}

/// Which tokens are brackets.
pub trait Brackets<T> {
    ghost use Rattle.regex_reader.specs.declared.brackets.Bracket.{Bracket};

    /// What a token is.
    ghost bracket: { Self → T → Bracket };

    /// What a token is.
    fn bracket_of(&self, token: &T) -> Bracket
        ensures { result ≡ bracket self.now token.now };
}

/// Whether a token stands inside more than 64 open brackets. Any closing bracket closes the last one that is open, and a
/// bracket isn't inside the pair that it opens or closes.
pub fn nests_too_deep<T, B: Brackets<T>>(brackets: &B, tokens: &[T]) -> bool
    ensures { result ≡ nests_too_deep 0 (map (B.bracket brackets.now) tokens.now) }
{
    let mut depth: usize = 0;
    'tokens: for token in tokens {
        let bracket = brackets.bracket_of(token);
        if depth_round(depth, bracket) > MOST_OPEN as usize {
            return true;
        }
        depth = depth_behind(depth, bracket);
    }
    false
}

/// How many brackets are open round a token, where so many were open before it.
fn depth_round(depth: usize, bracket: Bracket) -> usize
    ensures { result ≡ open_round depth bracket }
{
    match bracket {
        Bracket::Closing => depth.saturating_sub(1),
        Bracket::Opening | Bracket::Neither => depth,
    }
}

/// How many brackets are open behind a token.
fn depth_behind(depth: usize, bracket: Bracket) -> usize
    requires { depth < 2 ^ 64 - 1 }
    ensures { result ≡ open_behind depth bracket }
{
    match bracket {
        Bracket::Opening => depth + 1,
        Bracket::Closing | Bracket::Neither => depth_round(depth, bracket),
    }
}

/// The brackets of an xfst text.
#[derive(Drop)]
struct XfstBrackets;

impl Brackets<Token> for XfstBrackets {
    ghost bracket = { λ brackets token. bracket_of token };

    fn bracket_of(&self, token: &Token) -> Bracket {
        match token {
            Token::Operator(Operator::OpenSquare | Operator::OpenRound) => Bracket::Opening,
            Token::Operator(Operator::CloseSquare | Operator::CloseRound) => Bracket::Closing,
            _ => Bracket::Neither,
        }
    }
}

/// Whether a token of an xfst text stands inside more than 64 open brackets.
pub fn is_too_deep(tokens: &[Token]) -> bool
    ensures { result ≡ is_too_deep 0 tokens.now }
{
    nests_too_deep(&XfstBrackets, tokens)
}

ghost use Rattle.std.specs.Prelude.{◌≡◌};
ghost use Rattle.twolc_grammar.specs.Sections.{tokens_of};
ghost use Rattle.twolc_grammar.specs.Statements.{bracket_of, is_too_deep};

use regex_reader::{Bracket, Brackets, nests_too_deep};
use twolc_tokens::{Operator, Placed, Token};

/// The brackets of a twolc text.
#[derive(Drop)]
struct TwolcBrackets;

impl Brackets<Placed> for TwolcBrackets {
    ghost bracket = { λ brackets placed. bracket_of placed.token };

    fn bracket_of(&self, placed: &Placed) -> Bracket {
        match placed.token {
            Token::Operator(Operator::OpenSquare | Operator::OpenRound) => Bracket::Opening,
            Token::Operator(Operator::CloseSquare | Operator::CloseRound) => Bracket::Closing,
            _ => Bracket::Neither,
        }
    }
}

/// Whether a token stands inside more than 64 open brackets, as [`nests_too_deep`] counts them.
pub fn is_too_deep(tokens: &[Placed]) -> bool
    ensures { result ≡ is_too_deep 0 (tokens_of tokens.now) }
{
    nests_too_deep(&TwolcBrackets, tokens)
}

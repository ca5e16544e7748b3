ghost use Rattle.std.specs.Prelude.{◌≡◌, ◌+◌, ◌∷◌, length};
ghost use Rattle.std.specs.Option.{option_map};
ghost use Rattle.regex_tokens.specs.Bytes.{begins};
ghost use Rattle.regex_reader.specs.Files.{is_round};
ghost use Rattle.regex_reader.specs.Verdicts.{placed, fits, IsRunSplit, IsEndSplit, IsFormSplit};

use crate::name::is_name;
use fsm_base::Text;
use regex_tokens::{Operator, Place, Token};

/// The parts of a statement `define NAME EXPRESSION ;`.
#[derive(Clone, Copy)]
pub struct Form<'a> {
    /// The name.
    pub name: &'a Text,
    /// The tokens of the expression.
    pub expression: &'a [Token],
}

/// The name and the expression of a statement; `None` where the tokens are of another form.
pub fn form_of<'a>(tokens: &'a [Token], places: &[Place]) -> Option<Form<'a>>
    requires { length tokens.now ≡ length places.now }
    ensures { IsFormSplit (placed tokens.now places.now) (option_map (λ f. (f.name.now, f.expression.now)) result) }
{
    let (command, rest) = split_run(tokens)?;
    let (name, rest) = split_run(rest)?;
    let expression = split_end(rest)?;
    if !fits(command, name, expression, places[2].apart) {
        return None;
    }
    Some(Form { name, expression })
}

/// Whether these are a command, a name and an expression, which a blank or a comment is before or isn't.
fn fits(command: &Text, name: &Text, expression: &[Token], apart: bool) -> bool
    ensures { result ≡ fits command.now name.now expression.now apart }
{
    let joined = begins_with_round(expression) && !apart;
    command.as_str() == "define" && is_name(name.as_str().as_bytes()) && !joined
}

/// The run without escape in front, and the tokens behind it.
fn split_run(tokens: &[Token]) -> Option<(&Text, &[Token])>
    ensures { IsRunSplit tokens.now (option_map (λ x. (x.0.now, x.1.now)) result) }
{
    match tokens.split_first() {
        Some((Token::Run(run), rest)) if !run.escaped => Some((&run.text, rest)),
        _ => None,
    }
}

/// The tokens before the `;` at the end.
fn split_end(tokens: &[Token]) -> Option<&[Token]>
    ensures { IsEndSplit tokens.now (option_map (λ front. front.now) result) }
{
    match tokens.split_last() {
        Some((Token::Operator(Operator::Semicolon), front)) => Some(front),
        _ => None,
    }
}

fn begins_with_round(tokens: &[Token]) -> bool
    ensures { result ≡ begins is_round tokens.now }
{
    matches!(tokens.first(), Some(Token::Operator(Operator::OpenRound)))
}

ghost use Rattle.std.specs.Prelude.{◌≡◌, [], OnOk};
ghost use Rattle.project_meaning.specs.Trees.{sides};
ghost use Rattle.lexc_reader.specs.EntryAnswers.{IsEntryRead, IsOnlyWord, IsSaid, IsSaidBehind, IsSaidByWord, MayBeEntry, form_seen};
ghost use Rattle.lexc_grammar.specs.Entries.{fault_at, with_expression, with_form};
ghost use Rattle.lexc_grammar.specs.Lexicons.{form_of};
ghost use Rattle.lexc_grammar.specs.declared.statements.Ending.TheVariants as endings;

use crate::words::next_of;
use fsm_base::Text;
use lexc_forms::{DeclaredSymbols, Letter, SharedTexts, read_form};
use lexc_grammar::Ending;
use lexc_tokens::Token;
use regex_ast::{Expr, Form, Raw, ReadError, Why};
use regex_reader::read_expr;
use std::alloc::Global;

/// A fault of an entry, and its line.
#[derive(Clone, Copy, Debug, PartialEq, Eq)]
pub struct EntryFault {
    /// The line.
    pub line: u32,
    /// The reason.
    pub why: Why,
}

/// What an entry says whose form is this, or has this fault, with these tokens behind it: one word, and then `;`.
fn behind_form(
    alloc: Global,
    texts: &mut SharedTexts,
    line: u32,
    form: Result<Form<Raw>, EntryFault>,
    more: &[Token],
    ending: Ending,
) -> Result<(Form<Raw>, Option<Text>), ReadError>
    ensures said { IsSaid (with_form line (form_seen form) more.now ending) result }
    ensures ended { OnOk result (ending ≡ endings.Ended) }
{
    match ending {
        Ending::Broken { line: at } => Err(ReadError::Fault {
            line: at,
            why: Why::Token,
        }),
        Ending::Unended => Err(ReadError::Fault {
            line,
            why: Why::Statement,
        }),
        Ending::Ended => behind_ended(alloc, texts, line, form, more),
    }
}

/// The same where the entry ends with its `;`.
fn behind_ended(
    alloc: Global,
    texts: &mut SharedTexts,
    line: u32,
    form: Result<Form<Raw>, EntryFault>,
    more: &[Token],
) -> Result<(Form<Raw>, Option<Text>), ReadError>
    ensures { IsSaid (with_form line (form_seen form) more.now endings.Ended) result }
{
    let Some(next) = only_word(more) else {
        return Err(ReadError::Fault {
            line,
            why: Why::Statement,
        });
    };
    let form = match form {
        Ok(form) => form,
        Err(fault) => {
            return Err(ReadError::Fault {
                line: fault.line,
                why: fault.why,
            });
        }
    };
    match next_of(alloc, texts, next) {
        Ok(next) => Ok((form, next)),
        Err(error) => Err(ReadError::Memory(error)),
    }
}

/// The letters of the one token that these are, where it is a word.
fn only_word(tokens: &[Token]) -> Option<&[Letter]>
    ensures { IsOnlyWord tokens.now result }
{
    let (first, others) = tokens.split_first()?;
    if !others.is_empty() {
        return None;
    }
    match first {
        Token::Word(word) => Some(word.letters()),
        _ => None,
    }
}

/// What an entry says whose expression reads so, with these tokens behind it.
fn behind_expression(
    alloc: Global,
    texts: &mut SharedTexts,
    line: u32,
    read: Result<Expr<Raw>, ReadError>,
    more: &[Token],
    ending: Ending,
) -> Result<(Form<Raw>, Option<Text>), ReadError>
    ensures said { IsSaidBehind line read more.now ending result }
    ensures ended { OnOk result (ending ≡ endings.Ended) }
{
    match read {
        Ok(expr) => behind_form(alloc, texts, line, Ok(Form::Pairs(expr)), more, ending),
        Err(ReadError::Memory(error)) => Err(ReadError::Memory(error)),
        Err(ReadError::Fault { line: at, why }) => {
            behind_fault(
                alloc,
                texts,
                line,
                EntryFault { line: at, why },
                more,
                ending,
            )
        }
    }
}

/// What an entry says whose expression has this fault. A place without a token and open brackets go before what is wrong with
/// the form.
fn behind_fault(
    alloc: Global,
    texts: &mut SharedTexts,
    line: u32,
    fault: EntryFault,
    more: &[Token],
    ending: Ending,
) -> Result<(Form<Raw>, Option<Text>), ReadError>
    ensures said { IsSaid (with_expression line (fault_at fault.line fault.why) more.now ending) result }
    ensures ended { OnOk result (ending ≡ endings.Ended) }
{
    match fault.why {
        Why::Token => Err(ReadError::Fault {
            line: fault.line,
            why: Why::Token,
        }),
        Why::LimitNesting => match ending {
            Ending::Broken { line: at } => Err(ReadError::Fault {
                line: at,
                why: Why::Token,
            }),
            _ => Err(ReadError::Fault {
                line: fault.line,
                why: Why::LimitNesting,
            }),
        },
        _ => behind_form(alloc, texts, line, Err(fault), more, ending),
    }
}

/// A form with two empty sides.
fn no_sides(alloc: Global) -> Form<Raw>
    ensures { form_of result ≡ sides [] [] }
{
    Form::Sides {
        upper: Vec::new(alloc),
        lower: Vec::new(alloc),
    }
}

/// What an entry says whose form is a word, with these tokens behind it.
fn behind_word(
    alloc: Global,
    declared: &DeclaredSymbols,
    texts: &mut SharedTexts,
    line: u32,
    letters: &[Letter],
    more: &[Token],
    ending: Ending,
) -> Result<(Form<Raw>, Option<Text>), ReadError>
    ensures said { IsSaidByWord declared.now line letters.now more.now ending result }
    ensures ended { OnOk result (ending ≡ endings.Ended) }
{
    match read_form(alloc, declared, texts, letters) {
        Ok(Some(form)) => behind_form(alloc, texts, line, Ok(form), more, ending),
        Ok(None) => {
            let fault = EntryFault {
                line,
                why: Why::Statement,
            };
            behind_form(alloc, texts, line, Err(fault), more, ending)
        }
        Err(error) => Err(ReadError::Memory(error)),
    }
}

/// What the tokens of an entry say that begins in this line: its form, and the lexicon that a path goes on in. Texts that come often are
/// shared by way of `texts`.
///
/// # Errors
///
/// The first of these that it has: `Token`, at a place where no token begins; and with the line of the entry `LimitNesting`,
/// where an expression has too many open brackets; `Statement`, where it isn't a form, a word and `;`; `LimitPower`, where an
/// expression has too high a power. `Memory` where there was no memory.
pub fn read_entry(
    alloc: Global,
    declared: &DeclaredSymbols,
    texts: &mut SharedTexts,
    line: u32,
    tokens: &[Token],
    ending: Ending,
) -> Result<(Form<Raw>, Option<Text>), ReadError>
    requires { MayBeEntry line tokens.now }
    ensures said { IsEntryRead declared.now line tokens.now ending result }
    ensures ended { OnOk result (ending ≡ endings.Ended) }
{
    let Some((first, more)) = tokens.split_first() else {
        return behind_form(alloc, texts, line, Ok(no_sides(alloc)), tokens, ending);
    };
    match first {
        Token::Word(word) => {
            if more.is_empty() {
                return behind_form(alloc, texts, line, Ok(no_sides(alloc)), tokens, ending);
            }
            behind_word(alloc, declared, texts, line, word.letters(), more, ending)
        }
        Token::Semicolon => unreachable!(),
        Token::Expression(text) => {
            let read = read_expr(alloc, text.as_str(), line);
            behind_expression(alloc, texts, line, read, more, ending)
        }
    }
}

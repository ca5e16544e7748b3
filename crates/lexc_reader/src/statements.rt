ghost use Rattle.std.specs.Prelude.{◌≡◌, ◌+◌, ◌-◌, ◌<◌, ◌^◌, List, false, true};
ghost use Rattle.regex_tokens.specs.Cuts.{newlines};
ghost use Rattle.lexc_forms.specs.declared.letters.Letter.{Letter};
ghost use Rattle.lexc_tokens.specs.declared.token.Token.TheVariants as tokens;
ghost use Rattle.lexc_grammar.specs.Files.{IsNoKeyword, opens, spelling};
ghost use Rattle.lexc_grammar.specs.Lexicons.{Known};
ghost use Rattle.lexc_grammar.specs.declared.statements.Keyword.TheVariants as keywords;
ghost use Rattle.lexc_grammar.specs.declared.statements.Stage.TheVariants as stages;
ghost use Rattle.regex_ast.specs.declared.fault.ReadError.TheVariants as errors;
ghost use Rattle.regex_ast.specs.declared.fault.Why.TheVariants as whys;
ghost use Rattle.lexc_reader.specs.Answers.{IsFound, IsKeywordOf, IsStatementRead, known_of, lines_of};

use crate::entries::read_entry;
use crate::gathering::entry_tokens;
use crate::state::State;
use crate::words::{is_name, keyword};
use flag_texts::read_flag;
use lexc_forms::{characters, text_of};
use lexc_grammar::{Keyword, Stage};
use lexc_tokens::{Found, Next, Token, scan};
use regex_ast::{ReadError, Why};
use std::alloc::Global;

/// Where a text goes on behind a statement.
#[derive(Clone, Copy, Debug, PartialEq, Eq)]
pub struct Step {
    /// Where the next statement stands.
    pub stage: Stage,
    /// How many characters the statement has together with what stands before it.
    pub len: usize,
    /// The line in which the text behind it begins.
    pub line: u32,
}

/// Whether a statement may begin with an expression.
fn opens(stage: Stage) -> bool
    ensures { result ≡ opens stage }
{
    match stage {
        Stage::Beginning | Stage::InSymbols => false,
        Stage::InLexicon => true,
    }
}

/// The keyword that a token is; `None` where it is none.
fn keyword_of(token: &Token) -> Option<Keyword>
    ensures { IsKeywordOf token.now result }
{
    match token {
        Token::Word(word) => keyword(word.letters()),
        _ => None,
    }
}

/// The fault of a statement in this line that has no form.
fn no_statement(line: u32) -> ReadError
    ensures { result ≡ errors.Fault line whys.Statement }
{
    ReadError::Fault {
        line,
        why: Why::Statement,
    }
}

/// Reads the statement that comes next in a text that begins in this line; `None` where the lexicons end.
pub fn read_statement(
    alloc: Global,
    state: &mut State,
    stage: Stage,
    text: &[char],
    line: u32,
) -> Result<Option<Step>, ReadError>
    requires { line + newlines text.now < 2 ^ 32 - 1 }
    ensures { IsStatementRead (line + newlines text.now) stage (known_of state.old) text.now (known_of state.new) result }
{
    match scan(alloc, text, line, opens(stage))? {
        Next::End => Ok(None),
        Next::NoToken { line: at } => Err(ReadError::Fault {
            line: at,
            why: Why::Token,
        }),
        Next::Found(found) => read_found(alloc, state, stage, text, found),
    }
}

/// Reads the statement that this token begins.
fn read_found(
    alloc: Global,
    state: &mut State,
    stage: Stage,
    text: &[char],
    found: Found,
) -> Result<Option<Step>, ReadError>
    requires found { IsFound (opens stage) text.now found }
    requires lines { lines_of text.now found < 2 ^ 32 - 1 }
    ensures { IsStatementRead (lines_of text.now found) stage (known_of state.old) text.now (known_of state.new) result }
{
    match keyword_of(&found.token) {
        Some(Keyword::End) => Ok(None),
        Some(Keyword::Symbols) => begin_symbols(stage, text, &found),
        Some(Keyword::Lexicon) => read_name(alloc, state, stage, text, &found),
        None => match stage {
            Stage::Beginning => Err(no_statement(found.line)),
            Stage::InSymbols => read_symbol(alloc, state, text, &found),
            Stage::InLexicon => read_lexicon_entry(alloc, state, text, found),
        },
    }
}

/// `Multichar_Symbols`, which stands at the beginning alone.
fn begin_symbols(stage: Stage, text: &[char], found: &Found) -> Result<Option<Step>, ReadError>
    requires found { IsFound (opens stage) text.now found.now }
    requires word { found.now.token ≡ tokens.Word (spelling keywords.Symbols) }
    ensures { (known : Known) → IsStatementRead (lines_of text.now found.now) stage known text.now known result }
{
    match stage {
        Stage::Beginning => Ok(Some(Step {
            stage: Stage::InSymbols,
            len: found.len,
            line: found.behind,
        })),
        _ => Err(no_statement(found.line)),
    }
}

/// The name of a lexicon, behind `LEXICON`.
fn read_name(
    alloc: Global,
    state: &mut State,
    stage: Stage,
    text: &[char],
    found: &Found,
) -> Result<Option<Step>, ReadError>
    requires found { IsFound (opens stage) text.now found.now }
    requires lines { lines_of text.now found.now < 2 ^ 32 - 1 }
    requires word { found.now.token ≡ tokens.Word (spelling keywords.Lexicon) }
    ensures { IsStatementRead (lines_of text.now found.now) stage (known_of state.old) text.now (known_of state.new) result }
{
    let behind = text.split_at(found.len).1;
    let name = match scan(alloc, behind, found.behind, false)? {
        Next::End => return Err(no_statement(found.line)),
        Next::NoToken { line: at } => {
            return Err(ReadError::Fault {
                line: at,
                why: Why::Token,
            });
        }
        Next::Found(name) => name,
    };
    let Token::Word(word) = &name.token else {
        return Err(no_statement(found.line));
    };
    if !is_name(word.letters()) {
        return Err(no_statement(found.line));
    }
    let named = text_of(alloc, word.letters())?;
    if state.names.contains(named.as_str()) {
        return Err(ReadError::Fault {
            line: found.line,
            why: Why::Duplicate,
        });
    }
    state.open_lexicon(alloc, found.line, named)?;
    Ok(Some(Step {
        stage: Stage::InLexicon,
        len: found.len + name.len,
        line: name.behind,
    }))
}

/// A declared symbol, or a flag, which is none.
fn read_symbol(
    alloc: Global,
    state: &mut State,
    text: &[char],
    found: &Found,
) -> Result<Option<Step>, ReadError>
    requires found { IsFound false text.now found.now }
    requires word { (letters : List Letter) → found.now.token ≡ tokens.Word letters → IsNoKeyword letters }
    ensures { IsStatementRead (lines_of text.now found.now) stages.InSymbols (known_of state.old) text.now (known_of state.new) result }
{
    let Token::Word(word) = &found.token else {
        return Err(no_statement(found.line));
    };
    let symbol = text_of(alloc, word.letters())?;
    let step = Step {
        stage: Stage::InSymbols,
        len: found.len,
        line: found.behind,
    };
    match read_flag(alloc, symbol.as_str())? {
        Some(_) => Ok(Some(step)),
        None => {
            let characters = characters(alloc, word.letters())?;
            state.add_symbol(alloc, found.line, characters, symbol)?;
            Ok(Some(step))
        }
    }
}

/// An entry of a lexicon, to its `;`.
fn read_lexicon_entry(
    alloc: Global,
    state: &mut State,
    text: &[char],
    found: Found,
) -> Result<Option<Step>, ReadError>
    requires found { IsFound true text.now found }
    requires lines { lines_of text.now found < 2 ^ 32 - 1 }
    requires word { (letters : List Letter) → found.token ≡ tokens.Word letters → IsNoKeyword letters }
    ensures { IsStatementRead (lines_of text.now found) stages.InLexicon (known_of state.old) text.now (known_of state.new) result }
{
    if let Token::Semicolon = found.token {
        return Err(no_statement(found.line));
    }
    let behind = text.split_at(found.len).1;
    let entry = entry_tokens(alloc, found.token, behind, found.behind)?;
    let (form, next) = read_entry(
        alloc,
        &state.declared,
        &mut state.texts,
        found.line,
        &entry.tokens,
        entry.ending,
    )?;
    match state.add_entry(found.line, form, next)? {
        Some(why) => Err(ReadError::Fault {
            line: found.line,
            why,
        }),
        None => Ok(Some(Step {
            stage: Stage::InLexicon,
            len: found.len + entry.len,
            line: entry.behind,
        })),
    }
}

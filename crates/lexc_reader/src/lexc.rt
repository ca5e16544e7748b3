ghost use Rattle.std.specs.Prelude.{◌≡◌, ◌+◌, ◌-◌, ◌<◌, ◌^◌, chars, IfOk};
ghost use Rattle.regex_tokens.specs.Cuts.{newlines};
ghost use Rattle.lexc_reader.specs.Answers.{IsRead};

use crate::closing::close;
use crate::state::State;
use crate::statements::read_statement;
use lexc_grammar::Stage;
use regex_ast::{Lexicon, Raw, ReadError};
use std::alloc::{AllocError, Global};

/// The characters of a text.
fn characters(alloc: Global, text: &str) -> Result<Vec<char>, AllocError>
    ensures { IfOk result (λ characters. characters.items ≡ chars text.now) }
{
    text.chars().collect(alloc)
}

/// Reads the lexicons of a lexc text: `Multichar_Symbols` and declared symbols, or neither, then `LEXICON`, a name and
/// entries for each, then `END`, or not (Beesley and Karttunen, Finite State Morphology, 2003, chapter 4). The declared symbols
/// that are no flags come first, as a lexicon with the empty name and line 0.
///
/// # Errors
///
/// The first statement with a fault, and of its faults the first of these. All have the line of the statement but the first
/// and the last.
///
/// - `Token`, at a place where no token begins, with the line of the place;
/// - `LimitNesting`, where more than 64 brackets are open round a token of an expression;
/// - `Statement`, where it has no form of a statement;
/// - `LimitPower`, where a power `^n` has a number above 255;
/// - `LimitEntries` at the entry behind 100,000 others;
/// - `LimitFeatures` at the entry with the 33rd feature of flags;
/// - `Duplicate`, where a lexicon has the name of one before it;
/// - `UnknownLexicon` behind all statements: with line 0 where no lexicon is `Root`, or else with the line of the first entry
///   that goes on in a lexicon that isn't there.
///
/// `Memory` where there was no memory.
pub fn read_lexc(alloc: Global, text: &str) -> Result<Vec<Lexicon<Raw>>, ReadError>
    requires { newlines text.now + 1 < 2 ^ 32 - 1 }
    ensures { IsRead text.now result }
{
    let characters = characters(alloc, text)?;
    let mut state = State::new(alloc)?;
    let mut stage = Stage::Beginning;
    let mut len = 0;
    let mut line = 1;
    'statements: while let Some(step) = read_statement(
        alloc,
        &mut state,
        stage,
        characters.split_at(len).1,
        line,
    )? {
        stage = step.stage;
        len += step.len;
        line = step.line;
    }
    close(state)
}

ghost use Rattle.std.specs.Prelude.{◌≡◌, ◌≢◌, ◌+◌, ◌-◌, ◌<◌, ◌^◌, [], map, IfOk};
ghost use Rattle.std.specs.Result.{result_map_both};
ghost use Rattle.regex_tokens.specs.Cuts.{newlines};
ghost use Rattle.twolc_grammar.specs.Sections.{Says, at_end, names_of, nothing_read, tokens_of, whole};
ghost use Rattle.twolc_reader.specs.Reading.{HaveLines, IsAnswer, IsRead, IsStep, broken_at, grammar_view, name_of, names_at, names_with, open_fault, section_view, stage_view};

use crate::brackets::is_too_deep;
use crate::one::split_one;
use crate::stage::{Section, Stage, begun, leads};
use crate::statement::{put, verdict};
use regex_ast::{Grammar, Raw, ReadError, Why};
use regex_tokens::Ending;
use std::alloc::Global;
use twolc_expressions::KnownNames;
use twolc_tokens::{Placed, tokens};

/// Reads the grammar of a text: `Alphabet` and its list of pairs, `Sets` and `Definitions` and their statements, each of which
/// may be left out, and `Rules` and one rule at least (Koskenniemi, Two-level Morphology, 1983; Karttunen and Beesley,
/// Two-Level Rule Compiler, 1992). A rule has the line of its name.
///
/// # Errors
///
/// The first statement's fault, of these the first one that it has:
///
/// - `Token`, at a place where no token begins, with the line of the place; all others have the line of the statement's
///   first token, counted from 1, or line 0 where what is missing never comes;
/// - `LimitNesting`, where more than 64 brackets are open round a token;
/// - `Statement`, where it has no reading;
/// - `LimitPower`, where a power `^n` has a number above 255;
/// - `LimitRule`, where a rule has more than 64 contexts;
/// - `Duplicate`, where a set or a definition has the name of one above it.
///
/// `Memory` where there was no memory.
pub fn read_twolc(alloc: Global, text: &str) -> Result<Grammar<Raw>, ReadError>
    requires { newlines text.now + 1 < 2 ^ 32 - 1 }
    ensures says { IsRead text.now result }
    ensures lines { IfOk result (λ grammar. HaveLines text.now grammar.rules.items) }
{
    let found = tokens(alloc, text)?;
    grammar_of(alloc, &found.tokens, found.ending)
}

/// The grammar that tokens say which end so, or the first fault.
fn grammar_of(alloc: Global, tokens: &[Placed], ending: Ending) -> Result<Grammar<Raw>, ReadError>
    ensures says { IsAnswer (Says (nothing_read tokens.now ending)) result }
    ensures lines { IfOk result (λ grammar. map name_of grammar.rules.items ≡ names_at tokens.now) }
{
    let mut grammar = Grammar {
        pairs: Vec::new(alloc),
        sets: Vec::new(alloc),
        definitions: Vec::new(alloc),
        rules: Vec::new(alloc),
    };
    let mut names = KnownNames::new(alloc);
    let mut stage = Stage::Beginning;
    let mut rest = tokens;
    'statements: while !rest.is_empty() {
        let (next, behind) = match step(alloc, stage, rest, ending, &mut grammar, &mut names) {
            Ok(step) => step,
            Err(error) => return Err(error),
        };
        stage = next;
        rest = behind;
    }
    whole(stage, grammar, ending)
}

/// The stage behind the head word or the statement in front, and what is left.
fn step<'a>(
    alloc: Global,
    stage: Stage,
    tokens: &'a [Placed],
    ending: Ending,
    grammar: &mut Grammar<Raw>,
    names: &mut KnownNames,
) -> Result<(Stage, &'a [Placed]), ReadError>
    requires some { tokens.now ≢ [] }
    requires known { names.old ≡ names_of (grammar_view grammar.old) }
    ensures leads { IsStep stage tokens.now ending grammar.old grammar.new names.new (result_map_both (λ x. (x.0, x.1.now)) (λ e. e) result) }
    ensures lines { IfOk result (λ x. names_with grammar.new x.1.now ≡ names_with grammar.old tokens.now) }
{
    let Some((first, more)) = tokens.split_first() else {
        return Ok((stage, tokens));
    };
    if let Some(section) = leads(stage, &first.token) {
        return Ok((Stage::Within(section), more));
    }
    let Some(section) = begun(stage, &first.token) else {
        return Err(ReadError::Fault {
            line: first.line,
            why: Why::Statement,
        });
    };
    let Some((one, behind)) = split_one(section, tokens) else {
        return Err(unended(first.line, tokens, ending));
    };
    if let Some(line) = broken_at(section, behind, ending) {
        return Err(ReadError::Fault {
            line,
            why: Why::Token,
        });
    }
    let found = match verdict(alloc, names, section, first.line, one) {
        Ok(found) => found,
        Err(error) => return Err(error),
    };
    put(found, grammar, names)?;
    Ok((section.behind_statement(), behind))
}

/// The fault of a statement that has no `;`, whose first token stands in this line.
fn unended(line: u32, tokens: &[Placed], ending: Ending) -> ReadError
    ensures { result ≡ open_fault line (tokens_of tokens.now) ending }
{
    if let Ending::NoToken { line } = ending {
        return ReadError::Fault {
            line,
            why: Why::Token,
        };
    }
    let why = if is_too_deep(tokens) {
        Why::LimitNesting
    } else {
        Why::Statement
    };
    ReadError::Fault { line, why }
}

/// The line of the place where no token begins, if the statement before these tokens may go on to there.
fn broken_at(section: Section, behind: &[Placed], ending: Ending) -> Option<u32>
    ensures { result ≡ broken_at (section_view section) behind.now ending }
{
    match ending {
        Ending::NoToken { line } if section == Section::Rules && behind.is_empty() => Some(line),
        _ => None,
    }
}

/// The grammar at the end of the tokens, or what is missing.
fn whole(stage: Stage, grammar: Grammar<Raw>, ending: Ending) -> Result<Grammar<Raw>, ReadError>
    ensures says { IsAnswer (λ answer. answer ≡ at_end (stage_view stage) (grammar_view grammar) ending) result }
    ensures same { IfOk result (λ whole. whole ≡ grammar) }
{
    match ending {
        Ending::NoToken { line } => Err(ReadError::Fault {
            line,
            why: Why::Token,
        }),
        Ending::Whole => whole_grammar(stage, grammar),
    }
}

/// The grammar, where a rule was read.
fn whole_grammar(stage: Stage, grammar: Grammar<Raw>) -> Result<Grammar<Raw>, ReadError>
    ensures says { IsAnswer (λ answer. answer ≡ whole (stage_view stage) (grammar_view grammar)) result }
    ensures same { IfOk result (λ whole. whole ≡ grammar) }
{
    match stage {
        Stage::Within(Section::Rules) if !grammar.rules.is_empty() => Ok(grammar),
        _ => Err(ReadError::Fault {
            line: 0,
            why: Why::Statement,
        }),
    }
}

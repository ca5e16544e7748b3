ghost use Rattle.std.specs.Prelude.{◌≡◌, ◌++◌, map, false, IfOk, IfSome, OnOk};
ghost use Rattle.std.specs.Option.{option_map};
ghost use Rattle.twolc_expressions.specs.Reading.{IsFound};
ghost use Rattle.twolc_grammar.specs.Sections.{names_of, tokens_of, with_statement};
ghost use Rattle.twolc_grammar.specs.Statements.{IsStatement, is_again, is_large};
ghost use Rattle.twolc_reader.specs.Reading.{HasLine, IsVerdict, grammar_view, name_of, names_of_statement, refusal, section_view, statement_view, unless};

use crate::brackets::is_too_deep;
use crate::definition::definition_in;
use crate::list::{alphabet_in, set_in};
use crate::rule::rule_in;
use crate::stage::Section;
use regex_ast::{Grammar, PairAtom, PairDefine, Raw, ReadError, SetOf, TwoLevelRule, Why};
use std::alloc::{AllocError, Global};
use twolc_expressions::{KnownNames, has_high_power};
use twolc_tokens::Placed;

/// The most contexts of a rule.
const MOST_CONTEXTS: usize = 64;

/// What a statement says.
#[derive(Debug, Drop)]
pub enum Statement {
    /// The pairs of the alphabet.
    Alphabet(Vec<PairAtom<Raw>>),
    /// A set.
    Set(SetOf<Raw>),
    /// A definition.
    Definition(PairDefine<Raw>),
    /// A rule.
    Rule(TwoLevelRule<Raw>),
}

/// What the tokens of one statement say where these names are known.
///
/// # Errors
///
/// `Fault` at this line, of these the first one that it has: `LimitNesting`, `Statement`, `LimitPower`, `LimitRule`,
/// `Duplicate`. `Memory` where there was no memory.
pub fn verdict(
    alloc: Global,
    names: &KnownNames,
    section: Section,
    line: u32,
    tokens: &[Placed],
) -> Result<Statement, ReadError>
    ensures says { IsVerdict names.now (section_view section) line (tokens_of tokens.now) result }
    ensures at { IfOk result (HasLine line) }
{
    if is_too_deep(tokens) {
        return Err(ReadError::Fault {
            line,
            why: Why::LimitNesting,
        });
    }
    let Some(found) = statement_in(alloc, names, section, line, tokens)? else {
        return Err(ReadError::Fault {
            line,
            why: Why::Statement,
        });
    };
    let why = refusal(names, tokens, &found);
    unless_refused(found, line, why)
}

/// Why a statement that has a reading is refused, if it is: `LimitPower`, `LimitRule` or `Duplicate`.
fn refusal(names: &KnownNames, tokens: &[Placed], statement: &Statement) -> Option<Why>
    ensures { result ≡ refusal names.now (tokens_of tokens.now) (statement_view statement.now) }
{
    if has_high_power(tokens) {
        Some(Why::LimitPower)
    } else if is_large(statement) {
        Some(Why::LimitRule)
    } else if is_again(names, statement) {
        Some(Why::Duplicate)
    } else {
        None
    }
}

/// The statement, or a fault at this line where it is refused.
fn unless_refused(
    statement: Statement,
    line: u32,
    refusal: Option<Why>,
) -> Result<Statement, ReadError>
    ensures { result ≡ unless statement line refusal }
{
    match refusal {
        Some(why) => Err(ReadError::Fault { line, why }),
        None => Ok(statement),
    }
}

/// The statement of a section that the tokens are; `None` where they are none. A rule keeps the line that is passed.
fn statement_in(
    alloc: Global,
    names: &KnownNames,
    section: Section,
    line: u32,
    tokens: &[Placed],
) -> Result<Option<Statement>, AllocError>
    ensures says { IfOk result (λ found. IsFound (IsStatement names.now (section_view section) (tokens_of tokens.now)) (option_map statement_view found)) }
    ensures at { IfOk result (λ found. IfSome found (HasLine line)) }
{
    match section {
        Section::Alphabet => match alphabet_in(alloc, tokens)? {
            Some(pairs) => Ok(Some(Statement::Alphabet(pairs))),
            None => Ok(None),
        },
        Section::Sets => match set_in(alloc, tokens)? {
            Some(set) => Ok(Some(Statement::Set(set))),
            None => Ok(None),
        },
        Section::Definitions => match definition_in(alloc, names, tokens)? {
            Some(definition) => Ok(Some(Statement::Definition(definition))),
            None => Ok(None),
        },
        Section::Rules => match rule_in(alloc, names, line, tokens)? {
            Some(rule) => Ok(Some(Statement::Rule(rule))),
            None => Ok(None),
        },
    }
}

/// Whether it is a rule with more than 64 contexts.
fn is_large(statement: &Statement) -> bool
    ensures { result ≡ is_large (statement_view statement.now) }
{
    match statement {
        Statement::Rule(rule) => rule.contexts.len() > MOST_CONTEXTS,
        _ => false,
    }
}

/// Whether it is a set or a definition with a name that is known.
fn is_again(names: &KnownNames, statement: &Statement) -> bool
    ensures { result ≡ is_again names.now (statement_view statement.now) }
{
    match statement {
        Statement::Set(set) => names.has(set.name.as_str()),
        Statement::Definition(definition) => names.has(definition.name.as_str()),
        _ => false,
    }
}

/// Puts what a statement says into a grammar, and its name to those that are known. After an `Err` the grammar may have it or
/// not.
pub fn put(
    statement: Statement,
    grammar: &mut Grammar<Raw>,
    names: &mut KnownNames,
) -> Result<(), AllocError>
    requires known { names.old ≡ names_of (grammar_view grammar.old) }
    requires new { is_again names.old (statement_view statement) ≡ false }
    ensures grammar { OnOk result (grammar_view grammar.new ≡ with_statement (grammar_view grammar.old) (statement_view statement)) }
    ensures names { OnOk result (names.new ≡ names_of (grammar_view grammar.new)) }
    ensures lines { OnOk result (map name_of grammar.new.rules.items ≡ map name_of grammar.old.rules.items ++ names_of_statement statement) }
{
    match statement {
        Statement::Alphabet(pairs) => grammar.pairs = pairs,
        Statement::Set(set) => {
            names.add_set(set.name.as_str())?;
            grammar.sets.push(set)?;
        }
        Statement::Definition(definition) => {
            names.add_definition(definition.name.as_str())?;
            grammar.definitions.push(definition)?;
        }
        Statement::Rule(rule) => grammar.rules.push(rule)?,
    }
    Ok(())
}

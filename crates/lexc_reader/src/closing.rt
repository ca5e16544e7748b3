ghost use Rattle.std.specs.Prelude.{◌≡◌, map};
ghost use Rattle.std.specs.List.{flat_map};
ghost use Rattle.lexc_grammar.specs.Files.{first_unknown, unknown_next};
ghost use Rattle.lexc_grammar.specs.Lexicons.{entry_of, lexicon_of};
ghost use Rattle.lexc_reader.specs.Answers.{IsClosed, known_of};

use crate::state::State;
use fsm_base::TextTable;
use regex_ast::{Entry, Lexicon, Raw, ReadError, Why};

/// Whether an entry goes on in a lexicon that has none of these names.
fn is_unknown(names: &TextTable, entry: &Entry<Raw>) -> bool
    ensures { result ≡ unknown_next names.now (entry_of entry.now).entry.next }
{
    match &entry.next {
        None => false,
        Some(name) => !names.contains(name.as_str()),
    }
}

/// The line of the first entry of a lexicon that goes on in none with these names.
fn first_unknown_entry(names: &TextTable, entries: &[Entry<Raw>]) -> Option<u32>
    ensures { result ≡ first_unknown names.now (map entry_of entries.now) }
{
    'entries: for entry in entries {
        if is_unknown(names, entry) {
            return Some(entry.line);
        }
    }
    None
}

/// The same of all lexicons.
fn first_unknown(names: &TextTable, lexicons: &[Lexicon<Raw>]) -> Option<u32>
    ensures { result ≡ first_unknown names.now (flat_map (λ l. l.entries) (map lexicon_of lexicons.now)) }
{
    'lexicons: for lexicon in lexicons {
        if let Some(line) = first_unknown_entry(names, &lexicon.entries) {
            return Some(line);
        }
    }
    None
}

/// What is said behind all statements: the lexicons, that of the declared symbols first, or that one isn't there.
pub fn close(state: State) -> Result<Vec<Lexicon<Raw>>, ReadError>
    ensures { IsClosed (known_of state) result }
{
    let names = state.names;
    let mut lexicons = state.finished;
    lexicons.push(state.current)?;
    if !names.contains("Root") {
        return Err(ReadError::Fault {
            line: 0,
            why: Why::UnknownLexicon,
        });
    }
    match first_unknown(&names, &lexicons) {
        Some(line) => Err(ReadError::Fault {
            line,
            why: Why::UnknownLexicon,
        }),
        None => Ok(lexicons),
    }
}

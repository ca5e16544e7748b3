//! What a Rust program writes that works with automata, or that looks words up in a project of its own: it calls fsm_library alone. The
//! program worked_rows prints what comes of it.
#![tactic(auto)]

ghost use Rattle.std.specs.Prelude.{◌≡◌};

use fsm_library::automata::{
    Dfa, Edge, Fsa, Lang, Sym, fewest_states, minimal, one_letter, shortest,
};
use fsm_library::projects::{Direction, Sources, StoreError, load, reply_to_word};
use std::alloc::{AllocError, Global};

/// The manifest of a project of one lexicon.
const MANIFEST: &str = "lexc Noun nouns.lexc\n";

/// Its lexicon.
const NOUNS: &str =
    "Multichar_Symbols +N +Sg +Pl\nLEXICON Root\ncat Number ;\ndog Number ;\nmouse+N+Pl:mice # ;\nLEXICON Number\n+N+Sg:0 # ;\n+N+Pl:s # ;\n";

/// How many symbols a shortest word has in which two symbols `a` stand, over `a` and `b`, and how many states the smallest automaton
/// has, made of one with two states too many.
fn automata(alloc: Global) -> Result<String, AllocError> {
    let letters = vec![in alloc; Sym(0), Sym(1)]?;
    let next = vec![in alloc; 1, 0, 2, 1, 3, 4, 4, 3, 3, 4]?;
    let finals = vec![in alloc; false, false, true, true, true]?;
    let twice = Dfa::of(letters, next, finals);
    let small = minimal(alloc, &twice)?;
    match shortest(alloc, &twice)? {
        Some(word) => format!(in alloc; "{} symbols, {} states", word.len(), small.states()),
        None => String::from_str(alloc, "no word"),
    }
}

/// How many states the smallest automata over `a` have: that of all words, that of none, and that of the word `a` alone.
fn languages(alloc: Global) -> Result<String, AllocError> {
    let letters = [Sym(0)];
    let word = Lang::of(alloc, &letters, &one_letter(alloc, &letters)?)?;
    let all = word.star(alloc)?;
    let none = all.complement(alloc)?;
    format!(in alloc;
        "{} state, {} state, {} states",
        all.states(),
        none.states(),
        word.states()
    )
}

/// The edge between two states that reads the symbol with this number.
fn edge(from: usize, symbol: u32, to: usize) -> Edge<Sym>
    ensures { (result.from ≡ from) × (result.to ≡ to) }
{
    Edge {
        from,
        letter: Some(Sym(symbol)),
        to,
    }
}

/// How many states the smallest automaton has of two words that end alike, of which each was given a path of its own.
fn common_ends(alloc: Global) -> Result<String, AllocError> {
    let finals = vec![in alloc; false, false, true, false, true]?;
    let edges = vec![in alloc; edge(0, 0, 1), edge(1, 2, 2), edge(0, 1, 3), edge(3, 2, 4)]?;
    let paths = Fsa::of(finals, edges);
    match fewest_states(alloc, &paths, 10)? {
        Some(small) => format!(in alloc; "{} states of {}", small.states(), paths.states()),
        None => String::from_str(alloc, "not told"),
    }
}

/// The replies to two words, one looked up upwards and one downwards.
fn replies(alloc: Global) -> Result<Vec<u8>, StoreError> {
    let mut sources = Sources::new(alloc);
    sources.put("project", Vec::from_slice(alloc, MANIFEST.as_bytes())?)?;
    sources.put("nouns.lexc", Vec::from_slice(alloc, NOUNS.as_bytes())?)?;
    let version = load(alloc, sources)?;
    let mut bytes = reply_to_word(alloc, &version, Direction::Up, "Noun", "cats")?;
    let down = reply_to_word(alloc, &version, Direction::Down, "Noun", "mouse+N+Pl")?;
    bytes.extend_from_slice(&down)?;
    Ok(bytes)
}

/// What came of the automata and the languages, and of the look-ups in the project, line by line.
///
/// # Errors
///
/// Where there was no memory.
pub fn examples(alloc: Global) -> Result<String, AllocError> {
    let mut told = automata(alloc)?;
    told.push('\n')?;
    told.push_str(languages(alloc)?.as_str())?;
    told.push('\n')?;
    told.push_str(common_ends(alloc)?.as_str())?;
    told.push('\n')?;
    match replies(alloc) {
        Ok(bytes) => told.push_str(std::str::from_utf8(&bytes).unwrap_or(""))?,
        Err(StoreError::Refused(fault)) => write!(told, "{} {}", fault.file.as_str(), fault.line)?,
        Err(StoreError::Memory(error)) => return Err(error),
    }
    Ok(told)
}

ghost use Rattle.std.specs.Prelude.{◌≡◌, ◌∷◌, List, ℕ, [], IfOk, MatchOption, length, map};
ghost use Rattle.project_manifest.specs.Lines.{Line, SaysLine, file_in, is_gloss, names_required, symbols_said};
ghost use Rattle.project_manifest.specs.Manifests.{text_of};
ghost use Rattle.project_manifest.specs.Sayings.{AreNames, AreSymbols, AreTexts, IsFile, IsNamedFile, SaysBy, as_written, line_of};

use crate::file_names::is_file_name;
use crate::keywords::{Keyword, keyword_of};
use crate::words::{names_of, symbols_of, text_of_bytes};
use fsm_base::Text;
use regex_reader::is_name;
use std::alloc::{AllocError, Global};

/// What a line of a manifest declares.
#[derive(Debug, Drop)]
pub enum Declaration {
    /// `lexc NAME FILE`: the name is the relation of the file's lexicons.
    Lexicon {
        /// The name.
        name: Text,
        /// The file.
        file: Text,
    },
    /// `twolc NAME FILE`: the name is the relation of the file's grammar.
    Grammar {
        /// The name.
        name: Text,
        /// The file.
        file: Text,
    },
    /// `xfst FILE`: the file's definitions.
    Definitions {
        /// The file.
        file: Text,
    },
    /// `alphabet SYM ..`: further symbols.
    Symbols(Vec<Text>),
    /// `require NAME ..`: names that must be defined.
    Required(Vec<Text>),
    /// `gloss FILE`: the table of glosses.
    Glosses {
        /// The file.
        file: Text,
    },
}

impl Declaration {
    /// The file that it names, or `None` where it names none.
    pub fn file(&self) -> Option<&Text>
        ensures { MatchOption result (file_in (line_of self.now) ≡ []) (λ file. file_in (line_of self.now) ≡ file.now ∷ []) }
    {
        match self {
            Declaration::Lexicon { file, .. } => Some(file),
            Declaration::Grammar { file, .. } => Some(file),
            Declaration::Definitions { file } => Some(file),
            Declaration::Glosses { file } => Some(file),
            Declaration::Symbols(_) => None,
            Declaration::Required(_) => None,
        }
    }

    /// The further symbols that it declares, or none.
    pub fn symbols(&self) -> &[Text]
        ensures { result.now ≡ symbols_said (line_of self.now) }
    {
        match self {
            Declaration::Symbols(symbols) => symbols,
            _ => &[],
        }
    }

    /// The names that it requires, or none.
    pub fn required(&self) -> &[Text]
        ensures { result.now ≡ names_required (line_of self.now) }
    {
        match self {
            Declaration::Required(names) => names,
            _ => &[],
        }
    }

    /// Whether it names the table of glosses.
    pub fn is_glosses(&self) -> bool
        ensures { result ≡ is_gloss (line_of self.now) }
    {
        match self {
            Declaration::Glosses { .. } => true,
            _ => false,
        }
    }
}

/// The file that the words behind a keyword name, or `None` where they aren't one file's name.
fn file_in(alloc: Global, words: &[Vec<u8>]) -> Result<Option<Text>, AllocError>
    requires { AreTexts (as_written words.now) }
    ensures { IfOk result (λ file. MatchOption file ((name : List ℕ) → IsFile (as_written words.now) name → ⊥) (IsFile (as_written words.now))) }
{
    let [file] = words else {
        return Ok(None);
    };
    if !is_file_name(file) {
        return Ok(None);
    }
    Ok(Some(text_of_bytes(alloc, file)?))
}

/// The name and the file that the words behind a keyword name, or `None` where they aren't a name and a file's name.
fn named_file(alloc: Global, words: &[Vec<u8>]) -> Result<Option<(Text, Text)>, AllocError>
    requires { AreTexts (as_written words.now) }
    ensures { IfOk result (λ found. MatchOption found ((name file : List ℕ) → IsNamedFile (as_written words.now) name file → ⊥) (λ found. IsNamedFile (as_written words.now) found.0 found.1)) }
{
    let [name, file] = words else {
        return Ok(None);
    };
    if !is_name(name) || !is_file_name(file) {
        return Ok(None);
    }
    let name = text_of_bytes(alloc, name)?;
    let file = text_of_bytes(alloc, file)?;
    Ok(Some((name, file)))
}

/// The names that the words behind a keyword are, or `None` where there is none, or one isn't a name.
fn names_in(alloc: Global, words: &[Vec<u8>]) -> Result<Option<Vec<Text>>, AllocError>
    requires { AreTexts (as_written words.now) }
    ensures { IfOk result (λ names. MatchOption names (AreNames (as_written words.now) → ⊥) (λ names. AreNames (as_written words.now) × (names.items ≡ as_written words.now))) }
{
    if words.is_empty() {
        return Ok(None);
    }
    names_of(alloc, words)
}

/// The symbols that the words behind a keyword stand for, or `None` where there is none, or one stands for none.
fn symbols_in(alloc: Global, words: &[Vec<u8>]) -> Result<Option<Vec<Text>>, AllocError>
    requires { AreTexts (as_written words.now) }
    ensures { IfOk result (λ symbols. MatchOption symbols (AreSymbols (as_written words.now) → ⊥) (λ symbols. AreSymbols (as_written words.now) × (symbols.items ≡ map text_of (as_written words.now)))) }
{
    if words.is_empty() {
        return Ok(None);
    }
    symbols_of(alloc, words)
}

/// What the words behind a keyword declare, or `None` where they declare nothing.
fn declared_by(
    alloc: Global,
    keyword: Keyword,
    words: &[Vec<u8>],
) -> Result<Option<Declaration>, AllocError>
    requires { AreTexts (as_written words.now) }
    ensures { IfOk result (λ found. MatchOption found ((said : Line) → SaysBy keyword (as_written words.now) said → ⊥) (λ found. SaysBy keyword (as_written words.now) (line_of found))) }
{
    match keyword {
        Keyword::Lexc => match named_file(alloc, words)? {
            Some((name, file)) => Ok(Some(Declaration::Lexicon { name, file })),
            None => Ok(None),
        },
        Keyword::Twolc => match named_file(alloc, words)? {
            Some((name, file)) => Ok(Some(Declaration::Grammar { name, file })),
            None => Ok(None),
        },
        Keyword::Xfst => match file_in(alloc, words)? {
            Some(file) => Ok(Some(Declaration::Definitions { file })),
            None => Ok(None),
        },
        Keyword::Gloss => match file_in(alloc, words)? {
            Some(file) => Ok(Some(Declaration::Glosses { file })),
            None => Ok(None),
        },
        Keyword::Alphabet => match symbols_in(alloc, words)? {
            Some(symbols) => Ok(Some(Declaration::Symbols(symbols))),
            None => Ok(None),
        },
        Keyword::Require => match names_in(alloc, words)? {
            Some(names) => Ok(Some(Declaration::Required(names))),
            None => Ok(None),
        },
    }
}

/// What the words of a line declare, or `None` where they declare nothing.
pub fn declared(alloc: Global, words: &[Vec<u8>]) -> Result<Option<Declaration>, AllocError>
    requires { AreTexts (as_written words.now) }
    ensures { IfOk result (λ found. MatchOption found ((said : Line) → SaysLine (as_written words.now) said → ⊥) (λ found. SaysLine (as_written words.now) (line_of found))) }
{
    let Some((first, others)) = words.split_first() else {
        return Ok(None);
    };
    match keyword_of(first) {
        Some(keyword) => declared_by(alloc, keyword, others),
        None => Ok(None),
    }
}

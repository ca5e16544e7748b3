use fsm_base::Text;
use std::alloc::{AllocError, AllocFailed};
use thiserror::Error;

/// Why a project or an edit of it is refused, in the order in which the reasons are numbered.
#[derive(Clone, Copy, Debug, PartialEq, Eq, PartialOrd, Ord, Hash)]
pub enum Why {
    /// The manifest is missing.
    NoProject,
    /// A file has more bytes than a file may have.
    LimitFile,
    /// A byte isn't UTF-8.
    NotUtf8,
    /// A control character other than tab and newline.
    Control,
    /// A place where no token begins.
    Token,
    /// A token inside too many open brackets.
    LimitNesting,
    /// A statement that has no reading.
    Statement,
    /// A power `^n` with a number that is too large.
    LimitPower,
    /// A rule with too many mappings or contexts.
    LimitRule,
    /// Too many files.
    LimitFiles,
    /// Too many entries in a lexc file.
    LimitEntries,
    /// Too many flag features in a lexc file.
    LimitFeatures,
    /// A continuation that is no lexicon of its file.
    UnknownLexicon,
    /// A file that is named and isn't there.
    NoFile,
    /// A name, file, lexicon, set or key that is declared again.
    Duplicate,
    /// Too many names.
    LimitNames,
    /// Too many symbols.
    LimitSymbols,
    /// A required name that isn't defined.
    UnknownName,
    /// A definition that reaches itself through names.
    Cycle,
    /// A relation where a language is wanted.
    NotALanguage,
    /// A definition that weighs too much.
    LimitWeight,
    /// A centre whose language has the empty word.
    EmptyCentre,
    /// A splice of lines that aren't there.
    BadSplice,
}

/// What is wrong with a project, and where.
#[derive(Debug, Drop)]
pub struct Fault {
    /// The file, `project` being the manifest.
    pub file: Text,
    /// The line, counted from 1; 0 is the file as a whole.
    pub line: u32,
    /// The reason.
    pub why: Why,
}

/// What a reader of one source answers in place of its tree.
#[derive(Debug, Drop, Error)]
pub enum ReadError {
    /// The source's first fault, and its line, counted from 1; 0 is the source as a whole.
    #[error("line {line}: {why:?}")]
    Fault {
        /// The line.
        line: u32,
        /// The reason.
        why: Why,
    },
    /// There was no memory.
    #[error(transparent)]
    Memory(AllocError),
}

impl From<AllocError> for ReadError {
    ghost use Rattle.std.specs.Prelude.{◌≡◌};
    ghost use Rattle.regex_ast.specs.declared.fault.ReadError.TheVariants.{Memory};

    ghost from_gives = { λ refused error. error ≡ Memory refused };

    fn from(refused: AllocError) -> ReadError {
        ReadError::Memory(refused)
    }
}

impl<T: Drop> From<AllocFailed<T>> for ReadError {
    ghost use Rattle.std.specs.Prelude.{◌≡◌, alloc_error};
    ghost use Rattle.regex_ast.specs.declared.fault.ReadError.TheVariants.{Memory};

    ghost from_gives = { λ _ error. error ≡ Memory alloc_error };

    fn from(_: AllocFailed<T>) -> ReadError {
        ReadError::Memory(AllocError)
    }
}

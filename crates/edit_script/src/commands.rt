ghost use Rattle.std.specs.Prelude.{◌≡◌, ◌≢◌, List, ℕ, MatchOption, MatchResult};
ghost use Rattle.edit_script.specs.Commands.{HasKind, HasLines, HasNoSpace, IsAlone, IsCommand, IsPut, IsSplice, IsWhyNoCommand, Orders, kind_of, lines_behind};
ghost use Rattle.edit_script.specs.Reading.{command_of};
ghost use Rattle.edit_script.specs.declared.commands.EditCommand.{EditCommand};
ghost use Rattle.edit_script.specs.declared.commands.CommandKind.TheVariants.{Word};

use crate::errors::CommandError;
use crate::words::{is_file, net_and_word, number, split, text_of};
use fsm_base::Text;
use std::alloc::{AllocError, Global};

/// A command of an editor.
#[derive(Debug, Drop)]
pub enum EditCommand {
    /// `put FILE N`: the next lines are the whole file.
    Put {
        /// The file's name.
        file: Text,
        /// How many lines follow.
        lines: u32,
    },
    /// `splice FILE FROM COUNT N`: the next lines stand for some lines of the file.
    Splice {
        /// The file's name.
        file: Text,
        /// The first line that is replaced, counted from 1.
        from: u32,
        /// How many lines are replaced.
        count: u32,
        /// How many lines follow.
        lines: u32,
    },
    /// `drop FILE`: the file is there no more.
    Drop {
        /// The file's name.
        file: Text,
    },
    /// `up NET WORD`: the upper words of a word.
    Up {
        /// The name that is looked up in, as it is written.
        net: Text,
        /// The word, as it is written.
        word: Text,
    },
    /// `down NET WORD`: the lower words of a word.
    Down {
        /// The name that is looked up in, as it is written.
        net: Text,
        /// The word, as it is written.
        word: Text,
    },
    /// `begin`: a batch begins, whose edits are accepted or refused as one.
    Begin,
    /// `commit`: the edits of the batch are one change.
    Commit,
    /// `abandon`: the batch is dropped.
    Abandon,
    /// `end`: the last command.
    End,
}

impl EditCommand {
    /// How many lines follow it.
    pub fn lines_behind(&self) -> u32
        ensures { result ≡ lines_behind self.now }
    {
        match self {
            EditCommand::Put { lines, .. } | EditCommand::Splice { lines, .. } => *lines,
            _ => 0,
        }
    }
}

/// What kind a command is of.
#[derive(Clone, Copy, Debug, PartialEq, Eq)]
pub enum CommandKind {
    /// An edit: `put`, `splice` or `drop`.
    Edit,
    /// A look-up: `up` or `down`.
    LookUp,
    /// A word alone, which has no texts: `begin`, `commit`, `abandon` or `end`.
    Word,
}

/// A command whose texts are parts of its line.
#[derive(Drop)]
pub enum CommandOf<'a> {
    /// `put FILE N`.
    Put {
        file: &'a str,
        lines: u32,
    },
    /// `splice FILE FROM COUNT N`.
    Splice {
        file: &'a str,
        from: u32,
        count: u32,
        lines: u32,
    },
    /// `drop FILE`.
    Drop {
        file: &'a str,
    },
    /// `up NET WORD`.
    Up {
        net: &'a str,
        word: &'a str,
    },
    /// `down NET WORD`.
    Down {
        net: &'a str,
        word: &'a str,
    },
    /// `begin`.
    Begin,
    /// `commit`.
    Commit,
    /// `abandon`.
    Abandon,
    /// `end`.
    End,
}

impl CommandOf<'_> {
    /// How many lines follow it.
    fn lines_behind(&self) -> u32
        ensures { result ≡ lines_behind (command_of self.now) }
    {
        match self {
            CommandOf::Put { lines, .. } | CommandOf::Splice { lines, .. } => *lines,
            _ => 0,
        }
    }

    /// What kind it is of.
    fn kind(&self) -> CommandKind
        ensures { result ≡ kind_of (command_of self.now) }
    {
        match self {
            CommandOf::Put { .. } | CommandOf::Splice { .. } | CommandOf::Drop { .. } => {
                CommandKind::Edit
            }
            CommandOf::Up { .. } | CommandOf::Down { .. } => CommandKind::LookUp,
            CommandOf::Begin | CommandOf::Commit | CommandOf::Abandon | CommandOf::End => {
                CommandKind::Word
            }
        }
    }

    /// The command with texts of its own.
    fn keep(self, alloc: Global) -> Result<EditCommand, AllocError>
        ensures { MatchResult result (λ command. command ≡ command_of self.entry) (λ refused. kind_of (command_of self.entry) ≢ Word) }
    {
        Ok(match self {
            CommandOf::Put { file, lines } => EditCommand::Put {
                file: Text::of(alloc, file)?,
                lines,
            },
            CommandOf::Splice {
                file,
                from,
                count,
                lines,
            } => EditCommand::Splice {
                file: Text::of(alloc, file)?,
                from,
                count,
                lines,
            },
            CommandOf::Drop { file } => EditCommand::Drop {
                file: Text::of(alloc, file)?,
            },
            CommandOf::Up { net, word } => EditCommand::Up {
                net: Text::of(alloc, net)?,
                word: Text::of(alloc, word)?,
            },
            CommandOf::Down { net, word } => EditCommand::Down {
                net: Text::of(alloc, net)?,
                word: Text::of(alloc, word)?,
            },
            CommandOf::Begin => EditCommand::Begin,
            CommandOf::Commit => EditCommand::Commit,
            CommandOf::Abandon => EditCommand::Abandon,
            CommandOf::End => EditCommand::End,
        })
    }
}

/// The file and the number behind `put`.
fn put_of(rest: &str) -> Option<(&str, u32)>
    ensures { MatchOption result ((file : List ℕ) (lines : ℕ) → IsPut file lines rest.now → ⊥) (λ parts. IsPut parts.0.now parts.1 rest.now) }
{
    let (file, lines) = split(rest)?;
    if !is_file(file) {
        return None;
    }
    let lines = number(lines)?;
    Some((file, lines))
}

/// The file and the numbers behind `splice`.
fn splice_of(rest: &str) -> Option<(&str, u32, u32, u32)>
    ensures { MatchOption result ((file : List ℕ) (from count lines : ℕ) → IsSplice file from count lines rest.now → ⊥) (λ parts. IsSplice parts.0.now parts.1 parts.2 parts.3 rest.now) }
{
    let (file, numbers) = split(rest)?;
    if !is_file(file) {
        return None;
    }
    let (from, numbers) = split(numbers)?;
    let (count, lines) = split(numbers)?;
    Some((file, number(from)?, number(count)?, number(lines)?))
}

/// The command of a keyword and what stands behind its space, or `None` where they are none.
fn ordered<'a>(keyword: &str, rest: &'a str) -> Option<CommandOf<'a>>
    ensures { MatchOption result ((command : EditCommand) → Orders keyword.now rest.now command → ⊥) (λ parts. Orders keyword.now rest.now (command_of parts)) }
{
    match keyword {
        "put" => {
            let (file, lines) = put_of(rest)?;
            Some(CommandOf::Put { file, lines })
        }
        "splice" => {
            let (file, from, count, lines) = splice_of(rest)?;
            Some(CommandOf::Splice {
                file,
                from,
                count,
                lines,
            })
        }
        "drop" if is_file(rest) => Some(CommandOf::Drop { file: rest }),
        "up" => {
            let (net, word) = net_and_word(rest)?;
            Some(CommandOf::Up { net, word })
        }
        "down" => {
            let (net, word) = net_and_word(rest)?;
            Some(CommandOf::Down { net, word })
        }
        _ => None,
    }
}

/// The command that is a word alone, or `None` where it is none.
fn word_alone(text: &str) -> Option<CommandOf<'_>>
    ensures { MatchOption result ((command : EditCommand) → IsAlone text.now command → ⊥) (λ parts. IsAlone text.now (command_of parts)) }
{
    match text {
        "begin" => Some(CommandOf::Begin),
        "commit" => Some(CommandOf::Commit),
        "abandon" => Some(CommandOf::Abandon),
        "end" => Some(CommandOf::End),
        _ => None,
    }
}

/// The command of a line, or `None` where it is none.
fn command_in(line: &[u8]) -> Option<CommandOf<'_>>
    ensures { MatchOption result ((command : EditCommand) → IsCommand line.now command → ⊥) (λ parts. IsCommand line.now (command_of parts)) }
{
    let text = text_of(line)?;
    match split(text) {
        Some((keyword, rest)) => ordered(keyword, rest),
        None => word_alone(text),
    }
}

/// Reads an editor's command: `put FILE N`, `splice FILE FROM COUNT N`, `drop FILE`, `begin`, `commit`, `abandon`, `up NET WORD`,
/// `down NET WORD` or `end`.
///
/// One space separates. FILE is `project` or a file's name as in a manifest. NET isn't empty; WORD is all the rest, and the
/// space before an empty one may be left out. A number is in decimal, without a leading zero, and at most 1,048,576. A carriage
/// return at the end is dropped. The time is linear in the line.
///
/// # Errors
///
/// `Bad` where the line is in none of these forms, isn't UTF-8 or has more than 4,096 bytes, and `Memory` where it is such a
/// command and there was no memory for its texts; `begin`, `commit`, `abandon` and `end` have none.
pub fn read_command(alloc: Global, line: &[u8]) -> Result<EditCommand, CommandError>
    ensures { MatchResult result (IsCommand line.now) (IsWhyNoCommand line.now) }
{
    let Some(parts) = command_in(line) else {
        return Err(CommandError::Bad);
    };
    Ok(parts.keep(alloc)?)
}

/// How many lines follow a line: the N of `put FILE N` and of `splice FILE FROM COUNT N`, and 0 for every other line. It takes no
/// memory.
pub fn command_lines(line: &[u8]) -> u32
    ensures { HasLines line.now result }
{
    match command_in(line) {
        Some(parts) => parts.lines_behind(),
        None => 0,
    }
}

/// What kind of command a line is, or `None` where it is no command. It takes no memory: where [`read_command`] finds none, this tells
/// what the line asks for.
pub fn command_kind(line: &[u8]) -> Option<CommandKind>
    ensures { MatchOption result ((command : EditCommand) → IsCommand line.now command → ⊥) (HasKind line.now) }
{
    match command_in(line) {
        Some(parts) => Some(parts.kind()),
        None => None,
    }
}

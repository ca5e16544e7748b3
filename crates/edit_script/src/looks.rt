ghost use Rattle.std.specs.Prelude.{◌≡◌, ◌≢◌, MatchOption, MatchResult};
ghost use Rattle.edit_script.specs.Commands.{Asks, IsLook, IsWhyNoLook};
ghost use Rattle.edit_script.specs.Reading.{look_of};
ghost use Rattle.edit_script.specs.declared.looks.Look.{Look};
ghost use Rattle.edit_script.specs.declared.looks.Look.TheVariants.{Rest};

use crate::errors::CommandError;
use crate::words::{net_and_word, split, text_of};
use fsm_base::Text;
use std::alloc::{AllocError, Global};

/// What a lane's line asks for.
#[derive(Debug, Drop)]
pub enum Look {
    /// `up NET WORD`: the upper words of a word.
    Up {
        /// The name that is looked up in, as it is written.
        net: Text,
        /// The word, as it is written.
        word: Text,
    },
    /// `down NET WORD`: the lower words of a word.
    Down {
        /// The name that is looked up in, as it is written.
        net: Text,
        /// The word, as it is written.
        word: Text,
    },
    /// `gloss NET TEXT`: the words of a text with their glosses.
    Gloss {
        /// The name that is looked up in, as it is written.
        net: Text,
        /// The text, as it is written.
        text: Text,
    },
    /// `---`: the rest is answered at the last version.
    Rest,
}

/// What a lane's line asks for, whose texts are parts of the line.
#[derive(Drop)]
pub enum LookOf<'a> {
    /// `up NET WORD`.
    Up { net: &'a str, word: &'a str },
    /// `down NET WORD`.
    Down { net: &'a str, word: &'a str },
    /// `gloss NET TEXT`.
    Gloss { net: &'a str, text: &'a str },
    /// `---`.
    Rest,
}

impl LookOf<'_> {
    /// The same with texts of its own.
    fn keep(self, alloc: Global) -> Result<Look, AllocError>
        ensures { MatchResult result (λ look. look ≡ look_of self.entry) (λ refused. look_of self.entry ≢ Rest) }
    {
        Ok(match self {
            LookOf::Up { net, word } => Look::Up {
                net: Text::of(alloc, net)?,
                word: Text::of(alloc, word)?,
            },
            LookOf::Down { net, word } => Look::Down {
                net: Text::of(alloc, net)?,
                word: Text::of(alloc, word)?,
            },
            LookOf::Gloss { net, text } => Look::Gloss {
                net: Text::of(alloc, net)?,
                text: Text::of(alloc, text)?,
            },
            LookOf::Rest => Look::Rest,
        })
    }
}

/// What a keyword and what stands behind its space ask for, or `None` where they ask for nothing.
fn asked<'a>(keyword: &str, rest: &'a str) -> Option<LookOf<'a>>
    ensures { MatchOption result ((look : Look) → Asks keyword.now rest.now look → ⊥) (λ parts. Asks keyword.now rest.now (look_of parts)) }
{
    let (net, word) = net_and_word(rest)?;
    match keyword {
        "up" => Some(LookOf::Up { net, word }),
        "down" => Some(LookOf::Down { net, word }),
        "gloss" => Some(LookOf::Gloss { net, text: word }),
        _ => None,
    }
}

/// What a line asks for, or `None` where it asks for nothing.
fn look_in(line: &[u8]) -> Option<LookOf<'_>>
    ensures { MatchOption result ((look : Look) → IsLook line.now look → ⊥) (λ parts. IsLook line.now (look_of parts)) }
{
    let text = text_of(line)?;
    match split(text) {
        Some((keyword, rest)) => asked(keyword, rest),
        None if text == "---" => Some(LookOf::Rest),
        None => None,
    }
}

/// Reads a lane's line: `up NET WORD`, `down NET WORD`, `gloss NET TEXT` or `---`.
///
/// One space separates. NET isn't empty; WORD and TEXT are all the rest, and the space before an empty one may be left out. A
/// carriage return at the end is dropped. The time is linear in the line.
///
/// # Errors
///
/// `Bad` where the line is in none of these forms, isn't UTF-8 or has more than 4,096 bytes, and `Memory` where it is such a
/// line other than `---` and there was no memory for its texts.
pub fn read_look(alloc: Global, line: &[u8]) -> Result<Look, CommandError>
    ensures { MatchResult result (IsLook line.now) (IsWhyNoLook line.now) }
{
    let Some(parts) = look_in(line) else {
        return Err(CommandError::Bad);
    };
    Ok(parts.keep(alloc)?)
}

//! The text that the bytes of a source spell, in Normalization Form C.
ghost use Rattle.std.specs.Prelude.{◌≡◌, ◌-◌, ◌*◌, ◌^◌, ◌<◌, ◌≤◌, length, take, true, false, Ok, IfOk, IfErr, MatchOption, MatchResult};
ghost use Rattle.std.specs.List.{before_first, list_any};
ghost use Rattle.std.specs.Str.{IsUtf8, chars};
ghost use Rattle.std.specs.Str.Lossy.{utf8_valid_len};
ghost use Rattle.std.specs.String.{string_bytes};
ghost use Rattle.fsm_base.specs.Normal.{IsWhyNoText, is_refused, line_behind, most_growth, nfc_of, source_text, without_mark, without_returns};

use crate::Text;
use std::alloc::{AllocError, Global};
use std::str;
use thiserror::Error;
use unicode_normalization::to_nfc;

/// Why bytes are no text of a source.
#[derive(Debug, Drop, Error)]
pub enum TextError {
    /// The bytes are not UTF-8.
    #[error("line {line} is not UTF-8")]
    NotUtf8 {
        /// The line, counted from 1, of the first byte at which no character begins.
        line: u32,
    },
    /// A control character other than tab and newline is among the characters.
    #[error("line {line} has a control character")]
    Control {
        /// The line, counted from 1, of the first one.
        line: u32,
    },
    /// There is no memory.
    #[error(transparent)]
    Memory(AllocError),
}

impl From<AllocError> for TextError {
    ghost use Rattle.std.specs.Prelude.{◌≡◌};
    ghost use Rattle.fsm_base.specs.declared.normalize.TextError.TheVariants.{Memory};

    ghost from_gives = { λ refused error. error ≡ Memory refused };

    fn from(refused: AllocError) -> TextError {
        TextError::Memory(refused)
    }
}

/// The text in Normalization Form C (Unicode Standard Annex 15), at most eight times as long. A text of ASCII, which is
/// in that form, is copied.
pub fn nfc(alloc: Global, text: &str) -> Result<Text, AllocError>
    ensures text { IfOk result (λ normalized. normalized ≡ nfc_of text.now) }
    ensures short { IfOk result (λ normalized. length normalized ≤ most_growth * length text.now) }
{
    if text.is_ascii() {
        return Text::of(alloc, text);
    }
    Text::from_string(to_nfc(alloc, text)?)
}

/// The text of a source, in Normalization Form C.
///
/// The bytes must be UTF-8. A byte order mark at their start is left out, and so is each carriage
/// return that stands directly before a newline. No control character may be left then, other than
/// tab and newline. Lines are counted from 1 by newlines. The text is at most eight times as long as the bytes.
pub fn normal(alloc: Global, bytes: &[u8]) -> Result<Text, TextError>
    requires { length bytes.now < 2 ^ 32 - 1 }
    ensures text { IfOk result (λ text. source_text bytes.now ≡ Ok text) }
    ensures short { IfOk result (λ text. length text ≤ most_growth * length bytes.now) }
    ensures no_text { IfErr result (IsWhyNoText (source_text bytes.now)) }
{
    let text = without_returns(alloc, without_mark(utf8(bytes)?))?;
    match refused_line(text.as_str()) {
        Some(line) => Err(TextError::Control { line }),
        None => Ok(nfc(alloc, text.as_str())?),
    }
}

/// The bytes as a text.
fn utf8(bytes: &[u8]) -> Result<&str, TextError>
    requires { length bytes.now < 2 ^ 32 - 1 }
    ensures { MatchResult result (λ text. (text.now ≡ bytes.now) × IsUtf8 bytes.now) (λ error. ¬ (IsUtf8 bytes.now) × (error ≡ TextError.NotUtf8 (line_behind (take (utf8_valid_len bytes.now) bytes.now)))) }
{
    match str::from_utf8(bytes) {
        Ok(text) => Ok(text),
        Err(error) => Err(TextError::NotUtf8 {
            line: line_behind(&bytes[..error.valid_up_to()]),
        }),
    }
}

/// The text without a byte order mark at its start.
fn without_mark(text: &str) -> &str
    ensures characters { chars result.now ≡ without_mark (chars text.now) }
    ensures short { length result.now ≤ length text.now }
{
    text.strip_prefix('\u{FEFF}').unwrap_or(text)
}

/// The text with the carriage return before each newline left out.
fn without_returns(alloc: Global, text: &str) -> Result<String, AllocError>
    ensures characters { IfOk result (λ kept. chars (string_bytes kept) ≡ without_returns (chars text.now)) }
    ensures short { IfOk result (λ kept. length (string_bytes kept) ≤ length text.now) }
{
    text.replace(alloc, "\r\n", "\n")
}

/// The line of the first control character other than tab and newline.
fn refused_line(text: &str) -> Option<u32>
    requires { length text.now < 2 ^ 32 - 1 }
    ensures { MatchOption result (list_any is_refused (chars text.now) ≡ false) (λ line. (list_any is_refused (chars text.now) ≡ true) × (line ≡ line_behind (before_first is_refused (chars text.now)))) }
{
    let at = text.find(|c: char| c.is_control() && c != '\t' && c != '\n')?;
    Some(line_behind(&text.as_bytes()[..at]))
}

/// The line, counted from 1, of what comes behind this front of a text.
fn line_behind(front: &[u8]) -> u32
    requires { length front.now < 2 ^ 32 - 1 }
    ensures { result ≡ line_behind front.now }
{
    let newlines = front.iter().filter(|byte| **byte == b'\n').count();
    newlines as u32 + 1
}

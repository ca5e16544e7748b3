ghost use Rattle.std.specs.Prelude.{◌≡◌, ◌||◌, None, IfOk, OnOk};
ghost use Rattle.std.specs.Option.{option_map};
ghost use Rattle.att_text.specs.Faults.{fault_in, is_open, on_side, on_sides, with_said, with_side};
ghost use Rattle.att_text.specs.Views.{said_seen};
ghost use Rattle.regex_tokens.specs.Reading.{is_flag};

use crate::fields::Said;
use fsm_base::TextTable;
use std::alloc::{AllocError, AllocFailed};
use thiserror::Error;

/// The most symbols of a text.
pub(crate) const MOST_SYMBOLS: usize = 1_024;

/// Why a line of a text is refused, in the order in which the reasons are tried.
#[derive(Clone, Copy, Debug, PartialEq, Eq)]
pub enum AttWhy {
    /// It is neither an arc line nor a final line.
    Statement,
    /// One of its symbols is a flag diacritic.
    Flag,
    /// One of its symbols stands for others: `@_IDENTITY_SYMBOL_@` or `@_UNKNOWN_SYMBOL_@`.
    OpenSymbol,
    /// It has one symbol more than a text may have.
    LimitSymbols,
}

/// Why there is no network of a text.
#[derive(Debug, Drop, Error)]
pub enum AttError {
    /// A line, counted from 1, has a fault. It is the first one with a fault.
    #[error("line {line} is refused: {why:?}")]
    Refused {
        /// The line.
        line: u32,
        /// The first fault that it has.
        why: AttWhy,
    },
    /// There is no memory.
    #[error(transparent)]
    Memory(AllocError),
}

impl From<AllocError> for AttError {
    ghost use Rattle.std.specs.Prelude.{◌≡◌};
    ghost use Rattle.att_text.specs.declared.faults.AttError.TheVariants.{Memory};

    ghost from_gives = { λ refused error. error ≡ Memory refused };

    fn from(refused: AllocError) -> AttError {
        AttError::Memory(refused)
    }
}

impl<T: Drop> From<AllocFailed<T>> for AttError {
    ghost use Rattle.std.specs.Prelude.{◌≡◌, alloc_error};
    ghost use Rattle.att_text.specs.declared.faults.AttError.TheVariants.{Memory};

    ghost from_gives = { λ _ error. error ≡ Memory alloc_error };

    fn from(_: AllocFailed<T>) -> AttError {
        AttError::Memory(AllocError)
    }
}

/// Whether a symbol stands for others.
fn is_open(symbol: &str) -> bool
    ensures { result ≡ is_open symbol.now }
{
    symbol == "@_IDENTITY_SYMBOL_@" || symbol == "@_UNKNOWN_SYMBOL_@"
}

/// Whether a side has a flag diacritic.
fn has_flag(side: Option<&str>) -> bool
    ensures { result ≡ on_side is_flag (option_map (λ symbol. symbol.now) side.entry) }
{
    match side {
        Some(symbol) => regex_tokens::is_flag(symbol.as_bytes()),
        None => false,
    }
}

/// Whether a side has a symbol that stands for others.
fn has_open(side: Option<&str>) -> bool
    ensures { result ≡ on_side is_open (option_map (λ symbol. symbol.now) side.entry) }
{
    match side {
        Some(symbol) => is_open(symbol),
        None => false,
    }
}

/// Whether a line has a flag diacritic.
pub(crate) fn says_flag(said: Said<'_>) -> bool
    ensures { result ≡ on_sides is_flag (said_seen said.entry) }
{
    match said {
        Said::Arc(arc) => has_flag(arc.up) || has_flag(arc.low),
        Said::Final(_) => false,
    }
}

/// Whether a line has a symbol that stands for others.
pub(crate) fn says_open(said: Said<'_>) -> bool
    ensures { result ≡ on_sides is_open (said_seen said.entry) }
{
    match said {
        Said::Arc(arc) => has_open(arc.up) || has_open(arc.low),
        Said::Final(_) => false,
    }
}

/// Puts the symbol of a side behind the others, where it is new.
fn add_side(symbols: &mut TextTable, side: Option<&str>) -> Result<(), AllocError>
    ensures { OnOk result (symbols.new ≡ with_side (option_map (λ symbol. symbol.now) side.entry) symbols.old) }
{
    match side {
        Some(symbol) => {
            symbols.add(symbol)?;
            Ok(())
        }
        None => Ok(()),
    }
}

/// Puts the symbols of a line behind the others, where they are new.
fn add_said(symbols: &mut TextTable, said: Said<'_>) -> Result<(), AllocError>
    ensures { OnOk result (symbols.new ≡ with_said (said_seen said.entry) symbols.old) }
{
    match said {
        Said::Arc(arc) => {
            add_side(symbols, arc.up)?;
            add_side(symbols, arc.low)
        }
        Said::Final(_) => Ok(()),
    }
}

/// The first fault of a line behind lines with these symbols, to which those of the line are added where it has none.
pub(crate) fn fault_in(
    symbols: &mut TextTable,
    said: Said<'_>,
) -> Result<Option<AttWhy>, AllocError>
    ensures fault { IfOk result (λ fault. fault ≡ fault_in symbols.old (said_seen said.entry)) }
    ensures symbols { IfOk result (λ fault. fault ≡ None → symbols.new ≡ with_said (said_seen said.entry) symbols.old) }
{
    if says_flag(said) {
        return Ok(Some(AttWhy::Flag));
    }
    if says_open(said) {
        return Ok(Some(AttWhy::OpenSymbol));
    }
    add_said(symbols, said)?;
    if symbols.len() > MOST_SYMBOLS {
        return Ok(Some(AttWhy::LimitSymbols));
    }
    Ok(None)
}

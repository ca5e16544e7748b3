ghost use Rattle.std.specs.Prelude.{◌≡◌, ◌≤◌, ◌*◌, None, Some, Ok, [], length, IfOk, IfErr, OnOk};
ghost use Rattle.fsm_base.specs.Normal.{most_growth, source_text};
ghost use Rattle.att_text.specs.Paths.{HasSymbolsIn};
ghost use Rattle.saved_networks.specs.Faults.{IsWhyRefused, file_fault, most_bytes, source_fault};
ghost use Rattle.saved_networks.specs.Networks.{IsReadAs, IsSavedFrom};

use crate::faults::{SavedError, SavedWhy};
use crate::network::SavedNetwork;
use att_text::{AttError, read_att};
use fsa::Fsa;
use fsm_base::{Pair, SymbolTable, Text, TextError, normal};
use std::alloc::Global;

/// The most bytes of a file.
const MOST_BYTES: usize = 67_108_864;

/// The text of these bytes.
fn text_of(alloc: Global, bytes: &[u8]) -> Result<Text, SavedError>
    requires { length bytes.now ≤ most_bytes }
    ensures text { IfOk result (λ text. source_text bytes.now ≡ Ok text) }
    ensures short { IfOk result (λ text. length text ≤ most_growth * length bytes.now) }
    ensures error { IfErr result (IsWhyRefused (source_fault (source_text bytes.now))) }
{
    match normal(alloc, bytes) {
        Ok(text) => Ok(text),
        Err(TextError::NotUtf8 { line }) => Err(SavedError::Refused {
            line,
            why: SavedWhy::NotUtf8,
        }),
        Err(TextError::Control { line }) => Err(SavedError::Refused {
            line,
            why: SavedWhy::Control,
        }),
        Err(TextError::Memory(error)) => Err(SavedError::Memory(error)),
    }
}

/// The network of these bytes, whose symbols go to an empty table. Their text is let go.
fn read(alloc: Global, bytes: &[u8], table: &mut SymbolTable) -> Result<Fsa<Pair>, SavedError>
    requires few { length bytes.now ≤ most_bytes }
    requires empty { table.old ≡ [] }
    ensures read { IfOk result (λ net. IsReadAs bytes.now table.new net) }
    ensures symbols { IfOk result (λ net. HasSymbolsIn table.new net) }
    ensures faultless { OnOk result (source_fault (source_text bytes.now) ≡ None) }
    ensures error { IfErr result (IsWhyRefused (source_fault (source_text bytes.now))) }
{
    let text = text_of(alloc, bytes)?;
    match read_att(alloc, text.as_str(), table) {
        Ok(net) => Ok(net),
        Err(AttError::Refused { line, why }) => Err(SavedError::Refused {
            line,
            why: SavedWhy::Line(why),
        }),
        Err(AttError::Memory(error)) => Err(SavedError::Memory(error)),
    }
}

/// The network of a file's bytes, which are to be an AT&T text: UTF-8, with tabs and newlines.
///
/// It is read line by line, in a time that grows as the bytes do; its moves are sorted once. Neither the bytes nor their text is kept.
///
/// # Errors
///
/// `Refused` with the first fault, by the order in which [`SavedWhy`] names them:
///
/// - `LimitFile`, line 0, where there are more than 67,108,864 bytes;
/// - `NotUtf8` or `Control`, with the first such line, where they are no text of a source;
/// - `Line`, with the first line of the text that has a fault, and what that is.
///
/// `Memory` where there was no memory.
pub fn open(alloc: Global, bytes: &[u8]) -> Result<SavedNetwork, SavedError>
    ensures saved { IfOk result (λ saved. IsSavedFrom bytes.now saved) }
    ensures faultless { OnOk result (file_fault (Some bytes.now) ≡ None) }
    ensures error { IfErr result (IsWhyRefused (file_fault (Some bytes.now))) }
{
    if bytes.len() > MOST_BYTES {
        return Err(SavedError::Refused {
            line: 0,
            why: SavedWhy::LimitFile,
        });
    }
    let mut table = SymbolTable::new(alloc);
    let net = read(alloc, bytes, &mut table)?;
    let saved = SavedNetwork::of(alloc, &table, &net)?;
    Ok(saved)
}

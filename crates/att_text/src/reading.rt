ghost use Rattle.std.specs.Prelude.{◌≡◌, ◌↔◌, ◌<◌, ◌≤◌, ◌+◌, ◌-◌, ◌^◌, None, List, ℕ, length, map, IfOk, IfErr, OnOk, OnErr, [], take};
ghost use Rattle.att_text.specs.Drawing.{Extends, IsDrawn};
ghost use Rattle.att_text.specs.Faults.{IsWhyRefused, fault_of, most_symbols, with_all};
ghost use Rattle.att_text.specs.Lines.{said_in};
ghost use Rattle.att_text.specs.Paths.{HasSymbolsIn, HasTextIn, Relates, RelatesTexts};

use crate::drawing::Drawing;
use crate::faults::AttError;
use crate::fields::first_line;
use fsa::Fsa;
use fsm_base::{Pair, SymbolTable};
use std::alloc::{AllocError, Global};

/// The lines of a text drawn one after another, or the first fault.
fn drawing_of(alloc: Global, text: &str, table: &mut SymbolTable) -> Result<Drawing, AttError>
    requires short { length text.now < 2 ^ 32 - 1 }
    requires room { length table.old + most_symbols ≤ 16777216 }
    ensures faultless { OnOk result (fault_of text.now ≡ None) }
    ensures table { OnOk result (table.new ≡ with_all (said_in text.now) table.old) }
    ensures drawn { IfOk result (λ d. IsDrawn table.new (said_in text.now) d.states d.edges.items d.finals.items) }
    ensures error { IfErr result (IsWhyRefused (fault_of text.now)) }
    ensures grows { Extends table.old table.new }
{
    let mut drawing = Drawing::new(alloc)?;
    let mut rest = text;
    let mut number = 0u32;
    'lines: while !rest.is_empty() {
        let (line, behind) = first_line(rest);
        number += 1;
        match drawing.add_line(number, line, table) {
            Ok(()) => {}
            Err(error) => return Err(error),
        }
        rest = behind;
    }
    Ok(drawing)
}

/// The network of an AT&T text, whose symbols the table gets where they are new.
///
/// The states of a text may be any numbers below 2 ^ 64; those of the network are counted from 0 in the order in which the text names
/// them, behind 0. They are found again by a hash, and no field is copied but the symbols that are new.
///
/// # Errors
///
/// The first line with a fault, by the first that it has of these:
///
/// - `Statement`, where it is neither an arc line nor a final line, or where a symbol is empty;
/// - `Flag`, where a symbol is a flag diacritic;
/// - `OpenSymbol`, where a symbol is `@_IDENTITY_SYMBOL_@` or `@_UNKNOWN_SYMBOL_@`;
/// - `LimitSymbols`, where it brings the 1,025th symbol.
///
/// `Memory` where there was no memory. The table is then as it was before.
pub fn read_att(alloc: Global, text: &str, table: &mut SymbolTable) -> Result<Fsa<Pair>, AttError>
    requires short { length text.now < 2 ^ 32 - 1 }
    requires room { length table.old + most_symbols ≤ 16777216 }
    ensures faultless { OnOk result (fault_of text.now ≡ None) }
    ensures relation { IfOk result (λ net. (upper lower : List (List ℕ)) → RelatesTexts (HasTextIn table.new) net upper lower ↔ Relates text.now upper lower) }
    ensures symbols { IfOk result (λ net. HasSymbolsIn table.new net) }
    ensures table { OnOk result (table.new ≡ with_all (said_in text.now) table.old) }
    ensures error { IfErr result (IsWhyRefused (fault_of text.now)) }
    ensures unchanged { OnErr result (table.new ≡ table.old) }
{
    let before = table.len();
    match drawing_of(alloc, text, table) {
        Ok(drawing) => Ok(drawing.into_network()),
        Err(error) => {
            table.keep(before);
            Err(error)
        }
    }
}

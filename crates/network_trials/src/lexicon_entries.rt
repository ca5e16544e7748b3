use flag_diacritics::Tape;
use flag_texts::read_flag;
use fsa::{Edge, Fsa};
use fsm_base::{Pair, Sym};
use lexc_compile::LexEntry;
use regex_ast::FlagOp;
use std::alloc::{AllocError, Global};

/// A side of an entry.
#[derive(Clone, Copy, Debug)]
enum Side {
    /// The upper one.
    Upper,
    /// The lower one.
    Lower,
}

/// The lexicons of a row. Their flags are added to `flags`.
pub fn lexicons_of(
    alloc: Global,
    row: &str,
    flags: &mut Vec<FlagOp>,
) -> Result<Vec<Vec<LexEntry>>, AllocError> {
    let mut lexicons = Vec::new(alloc);
    for text in row.split('/') {
        let mut entries = Vec::new(alloc);
        for entry in text.split(',') {
            if let Some((form, next)) = entry.trim().rsplit_once(' ') {
                entries.push(entry_of(alloc, form.trim(), next, flags)?)?;
            }
        }
        lexicons.push(entries)?;
    }
    Ok(lexicons)
}

/// The entry of a form.
fn entry_of(
    alloc: Global,
    form: &str,
    next: &str,
    flags: &mut Vec<FlagOp>,
) -> Result<LexEntry, AllocError> {
    let (upper, lower) = form.split_once(':').unwrap_or((form, form));
    let mut tape = Vec::new(alloc);
    add_side(alloc, upper, Side::Upper, &mut tape, flags)?;
    add_side(alloc, lower, Side::Lower, &mut tape, flags)?;
    Ok(LexEntry {
        net: net_of(alloc, &tape)?,
        next: next.parse().ok(),
    })
}

/// Adds the letters of a side, and its flags.
fn add_side(
    alloc: Global,
    text: &str,
    side: Side,
    tape: &mut Vec<Tape>,
    flags: &mut Vec<FlagOp>,
) -> Result<(), AllocError> {
    let mut rest = text;
    for _letter in 0..text.len() {
        if let Some((flag, behind)) = flag_in_front(alloc, rest)? {
            let number = u32::try_from(flags.len()).unwrap_or(u32::MAX);
            tape.push(flag_letter(side, number))?;
            flags.push(flag)?;
            rest = behind;
        } else {
            let mut characters = rest.chars();
            let Some(character) = characters.next() else {
                return Ok(());
            };
            if character != '0' {
                tape.push(symbol_letter(side, Sym(character as u32)))?;
            }
            rest = characters.as_str();
        }
    }
    Ok(())
}

/// The flag that a text begins with, if it does, and what stands behind it.
fn flag_in_front(alloc: Global, text: &str) -> Result<Option<(FlagOp, &str)>, AllocError> {
    let Some(behind) = text.strip_prefix('@') else {
        return Ok(None);
    };
    let Some((inner, rest)) = behind.split_once('@') else {
        return Ok(None);
    };
    let flag = read_flag(alloc, format!(in alloc; "@{inner}@")?.as_str())?;
    Ok(flag.map(|flag| (flag, rest)))
}

/// A flag on a side.
fn flag_letter(side: Side, number: u32) -> Tape {
    match side {
        Side::Upper => Tape::UpFlag(number),
        Side::Lower => Tape::LowFlag(number),
    }
}

/// A symbol on a side.
fn symbol_letter(side: Side, symbol: Sym) -> Tape {
    match side {
        Side::Upper => Tape::Pair(Pair {
            up: Some(symbol),
            low: None,
        }),
        Side::Lower => Tape::Pair(Pair {
            up: None,
            low: Some(symbol),
        }),
    }
}

/// The network of one tape.
fn net_of(alloc: Global, tape: &[Tape]) -> Result<Fsa<Tape>, AllocError> {
    let mut net = Fsa::new(alloc)?;
    let mut last = 0;
    for letter in tape {
        let to = net.add_state()?;
        net.add_edge(Edge {
            from: last,
            letter: Some(*letter),
            to,
        })?;
        last = to;
    }
    net.set_final(last);
    Ok(net)
}

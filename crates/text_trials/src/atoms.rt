use regex_ast::{PairAtom, PairPart, PairSide, Raw};
use std::alloc::{AllocError, Global};
use twolc_expressions::{KnownNames, centre_in, one_symbol_in, part_in, symbols_in};

/// The names that atoms are read by: `V` is a set, and `D` a definition.
fn names(alloc: Global) -> Result<KnownNames, AllocError> {
    let mut names = KnownNames::new(alloc);
    if !names.has_set("V") {
        names.add_set("V")?;
    }
    if !names.has_definition("D") {
        names.add_definition("D")?;
    }
    Ok(names)
}

/// The text of a symbol.
fn text_of(symbol: &Raw) -> &str {
    match symbol {
        Raw::Run(text) | Raw::Quoted(text) => text.as_str(),
    }
}

/// A side as it is written, with a set in braces.
fn said_of_side(alloc: Global, side: &PairSide<Raw>) -> Result<String, AllocError> {
    match side {
        PairSide::Zero => String::from_str(alloc, "0"),
        PairSide::Any => String::from_str(alloc, "?"),
        PairSide::One(symbol) => String::from_str(alloc, text_of(symbol)),
        PairSide::Member(set) => format!(in alloc; "{{{}}}", set.as_str()),
    }
}

/// A pair, or that there is none.
fn said_of_pair(alloc: Global, pair: Option<&PairAtom<Raw>>) -> Result<String, AllocError> {
    let Some(pair) = pair else {
        return String::from_str(alloc, "none");
    };
    let up = said_of_side(alloc, &pair.up)?;
    let low = said_of_side(alloc, &pair.low)?;
    format!(in alloc; "{}:{}", up.as_str(), low.as_str())
}

/// A part of an expression, or that there is none.
fn said_of_part(alloc: Global, part: Option<&PairPart<Raw>>) -> Result<String, AllocError> {
    match part {
        Some(PairPart::Atom(pair)) => said_of_pair(alloc, Some(pair)),
        Some(PairPart::Named(name)) => format!(in alloc; "named {}", name.as_str()),
        None => String::from_str(alloc, "none"),
    }
}

/// What an atom is as a part of an expression.
fn said_as_part(alloc: Global, names: &KnownNames, atom: &str) -> Result<String, AllocError> {
    let part = part_in(alloc, names, atom)?;
    said_of_part(alloc, part.as_ref())
}

/// What an atom is in the alphabet.
fn said_as_pair(alloc: Global, atom: &str) -> Result<String, AllocError> {
    let pair = symbols_in(alloc, atom)?;
    said_of_pair(alloc, pair.as_ref())
}

/// What an atom is as the centre of a rule.
fn said_as_centre(alloc: Global, names: &KnownNames, atom: &str) -> Result<String, AllocError> {
    let centre = centre_in(alloc, names, atom)?;
    said_of_pair(alloc, centre.as_ref())
}

/// What an atom is in the list of a set.
fn said_as_member(alloc: Global, atom: &str) -> Result<String, AllocError> {
    let symbol = one_symbol_in(alloc, atom)?;
    String::from_str(alloc, symbol.as_ref().map_or("none", text_of))
}

/// What an atom is: as a part of an expression, in the alphabet, as the centre of a rule, and in the list of a set.
pub fn said_of_atom(alloc: Global, atom: &str) -> Result<String, AllocError> {
    let names = names(alloc)?;
    let part = said_as_part(alloc, &names, atom)?;
    let pair = said_as_pair(alloc, atom)?;
    let centre = said_as_centre(alloc, &names, atom)?;
    let member = said_as_member(alloc, atom)?;
    format!(in alloc;
        "part {}, alphabet {}, centre {}, set {}",
        part.as_str(),
        pair.as_str(),
        centre.as_str(),
        member.as_str()
    )
}

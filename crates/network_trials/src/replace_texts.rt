ghost use Rattle.std.specs.Prelude.{◌≡◌, Contains, IfOk, IfSome};
ghost use Rattle.fsm_base.specs.Alphabet.{symbols_of};
ghost use Rattle.lookup.specs.Answering.{IsOverAlphabet};
ghost use Rattle.network_algebra.specs.Networks.{UsesSymbols};
ghost use Rattle.replace_rules.specs.Rules.{AreMapsOver, IsMapOver};
ghost use Rattle.replace_rules.specs.declared.rules.LangMap.{LangMap};

use crate::replace_parts::part_of;
use crate::symbols::Symbols;
use fsa::Fsa;
use fsm_base::{Bound, Pair, Sym};
use lang_algebra::Lang;
use lookup::Net;
use network_algebra::{every_letter, inside};
use replace_insertions::insert;
use replace_rules::{LangContext, LangGroup, LangMap, Side, replace};
use std::alloc::{AllocError, Global};

/// The network of the rules of a text.
pub fn network(alloc: Global, symbols: &Symbols, rules: &str) -> Result<Net, AllocError>
    ensures { IfOk result (IsOverAlphabet symbols.now.alphabet) }
{
    let fsa = rewriting(alloc, symbols, rules)?;
    Net::of(alloc, &fsa)
}

/// The network of the rules of a text, before look-up.
fn rewriting(alloc: Global, symbols: &Symbols, rules: &str) -> Result<Fsa<Pair>, AllocError>
    ensures { IfOk result (UsesSymbols (symbols_of symbols.now.alphabet)) }
{
    let optional = rules.contains("(->)");
    if rules.contains("[..]") {
        return insertion(alloc, symbols, optional, rules);
    }
    let groups = groups_of(alloc, symbols, rules)?;
    replace(alloc, symbols.alphabet.symbols(), optional, &groups)
}

/// The network of an insertion.
fn insertion(
    alloc: Global,
    symbols: &Symbols,
    optional: bool,
    text: &str,
) -> Result<Fsa<Pair>, AllocError>
    ensures { IfOk result (UsesSymbols (symbols_of symbols.now.alphabet)) }
{
    let (map, side, contexts) = sides_of(text);
    let (_, put) = halves(map).unwrap_or((map, ""));
    let put = language_of(alloc, symbols, put)?;
    let contexts = contexts_of(alloc, symbols, contexts)?;
    insert(
        alloc,
        symbols.alphabet.symbols(),
        optional,
        &put,
        side,
        &contexts,
    )
}

/// What stands before the arrow of a mapping, and behind it.
fn halves(map: &str) -> Option<(&str, &str)> {
    match map.split_once("(->)") {
        Some(halves) => Some(halves),
        None => map.split_once("->"),
    }
}

/// The groups of a text.
fn groups_of(alloc: Global, symbols: &Symbols, rules: &str) -> Result<Vec<LangGroup>, AllocError>
    ensures { IfOk result (λ groups. AreMapsOver (symbols_of symbols.now.alphabet) groups.items) }
{
    let mut groups = Vec::new(alloc);
    'groups: for text in rules.split(",,") {
        groups.push(group_of(alloc, symbols, text)?)?;
    }
    Ok(groups)
}

/// The group of a text.
fn group_of(alloc: Global, symbols: &Symbols, text: &str) -> Result<LangGroup, AllocError>
    ensures { IfOk result (λ group. (m : LangMap) → Contains group.maps.items m → IsMapOver (symbols_of symbols.now.alphabet) m) }
{
    let (maps, side, contexts) = sides_of(text);
    let maps = maps_of(alloc, symbols, maps)?;
    let contexts = contexts_of(alloc, symbols, contexts)?;
    Ok(LangGroup {
        maps,
        side,
        contexts,
    })
}

/// The mappings of a group, the side that its operator says, and its contexts, which may be none.
fn sides_of(text: &str) -> (&str, Side, &str) {
    if let Some((maps, contexts)) = text.split_once("||") {
        return (maps, Side::UpUp, contexts);
    }
    if let Some((maps, contexts)) = text.split_once("//") {
        return (maps, Side::LowUp, contexts);
    }
    if let Some((maps, contexts)) = text.split_once("\\\\") {
        return (maps, Side::UpLow, contexts);
    }
    let (maps, contexts) = text.split_once("\\/").unwrap_or((text, ""));
    (maps, Side::LowLow, contexts)
}

/// The mappings of a text. One that isn't written as one, or whose centre has the empty word, is left out.
fn maps_of(alloc: Global, symbols: &Symbols, text: &str) -> Result<Vec<LangMap>, AllocError>
    ensures { IfOk result (λ maps. (m : LangMap) → Contains maps.items m → IsMapOver (symbols_of symbols.now.alphabet) m) }
{
    let mut maps = Vec::new(alloc);
    'maps: for text in text.split(',') {
        if let Some(map) = map_of(alloc, symbols, text)? {
            maps.push(map)?;
        }
    }
    Ok(maps)
}

/// The mapping of a text, if it is one.
fn map_of(alloc: Global, symbols: &Symbols, text: &str) -> Result<Option<LangMap>, AllocError>
    ensures { IfOk result (λ found. IfSome found (IsMapOver (symbols_of symbols.now.alphabet))) }
{
    let Some((centre, put)) = halves(text) else {
        return Ok(None);
    };
    let centre = language_of(alloc, symbols, centre)?;
    if centre.has_empty() {
        return Ok(None);
    }
    let (before, _) = put.split_once("...").unwrap_or((put, ""));
    let result = language_of(alloc, symbols, before)?;
    let after = after_of(alloc, symbols, put)?;
    Ok(Some(LangMap {
        centre,
        result,
        after,
    }))
}

/// What a mapping puts behind its centre, where it is markup.
fn after_of(alloc: Global, symbols: &Symbols, put: &str) -> Result<Option<Lang<Sym>>, AllocError>
    ensures { IfOk result (λ found. IfSome found (λ lang. lang.letters ≡ symbols_of symbols.now.alphabet)) }
{
    match put.split_once("...") {
        Some((_, after)) => Ok(Some(language_of(alloc, symbols, after)?)),
        None => Ok(None),
    }
}

/// The words of a part that are without the edge.
fn language_of(alloc: Global, symbols: &Symbols, text: &str) -> Result<Lang<Sym>, AllocError>
    ensures { IfOk result (λ lang. lang.letters ≡ symbols_of symbols.now.alphabet) }
{
    let letters = every_letter(alloc, symbols.alphabet.symbols())?;
    let part = part_of(alloc, symbols, &letters, text)?;
    Lang::of(alloc, symbols.alphabet.symbols(), &inside(alloc, &part)?)
}

/// The contexts of a text.
fn contexts_of(
    alloc: Global,
    symbols: &Symbols,
    text: &str,
) -> Result<Vec<LangContext>, AllocError> {
    let mut contexts = Vec::new(alloc);
    'contexts: for text in text.split(',') {
        if let Some((left, right)) = text.split_once('_') {
            contexts.push(context_of(alloc, symbols, left, right)?)?;
        }
    }
    Ok(contexts)
}

/// The context of two parts.
fn context_of(
    alloc: Global,
    symbols: &Symbols,
    left: &str,
    right: &str,
) -> Result<LangContext, AllocError> {
    let left = side_of(alloc, symbols, left)?;
    let right = side_of(alloc, symbols, right)?;
    Ok(LangContext { left, right })
}

/// The words of a part, which may have the edge.
fn side_of(alloc: Global, symbols: &Symbols, text: &str) -> Result<Lang<Bound<Sym>>, AllocError> {
    let letters = every_letter(alloc, symbols.alphabet.symbols())?;
    let part = part_of(alloc, symbols, &letters, text)?;
    Lang::of(alloc, &letters, &part)
}

ghost use Rattle.std.specs.Prelude.{◌≡◌, ◌↔◌, ◌⊎◌, ◌<◌, All, IfOk, OnOk, Contains, map, length};
ghost use Rattle.fsm_base.specs.declared.letters.Bound.TheVariants.{Inner};
ghost use Rattle.fsm_base.specs.declared.letters.Sym.{Sym};
ghost use Rattle.word_relations.specs.Words.{IsDistinct};
ghost use Rattle.fsa.specs.Complete.{Accepts};
ghost use Rattle.replace_rules.specs.declared.rules.LangGroup.{LangGroup};
ghost use Rattle.replace_rules.specs.declared.rules.LangContext.{LangContext};
ghost use Rattle.replace_rules.specs.declared.rules.LangMap.{LangMap};
ghost use Rattle.replace_rules.specs.Alike.{AreColumns, AreFirsts, AreFirstsIn, ContextIsLike, GroupIsLike, IsColumn, IsDivided, IsFiner, IsFirstIn, IsLike, MapIsLike};

use crate::rows::symbol_at;
use crate::rules::{LangContext, LangGroup, LangMap};
use fsa::place_of;
use fsa_explore::{alike_in_both, columns_alike};
use fsa_subset::determine;
use fsm_base::{Bound, Letter, Sym};
use lang_algebra::Lang;
use std::alloc::{AllocError, Global};

/// For each of the symbols the first of those that no part of the rules tells from it.
pub fn firsts_of(alloc: Global, syms: &[Sym], groups: &[LangGroup]) -> Result<Vec<Sym>, AllocError>
    ensures { IfOk result (λ firsts. AreFirsts syms.now groups.now firsts.items) }
{
    let numbers = numbered(alloc, syms, groups)?;
    let classes = alike_in_both(alloc, &numbers, &numbers)?;
    firsts_in(alloc, syms, &classes.of_places, &classes.firsts)
}

/// For each place the first symbol of its class, where the places of the first symbols are given.
pub fn firsts_in(
    alloc: Global,
    syms: &[Sym],
    of_places: &[usize],
    firsts: &[usize],
) -> Result<Vec<Sym>, AllocError>
    requires classes { All (λ class. class < length firsts.now) of_places.now }
    requires places { All (λ first. first < length syms.now) firsts.now }
    ensures { IfOk result (λ found. AreFirstsIn syms.now firsts.now of_places.now found.items) }
{
    let mut found = Vec::new(alloc);
    for class in of_places {
        found.push(first_in(syms, firsts, *class))?;
    }
    Ok(found)
}

/// The first symbol of a class.
fn first_in(syms: &[Sym], firsts: &[usize], class: usize) -> Sym
    requires class { class < length firsts.now }
    requires places { All (λ first. first < length syms.now) firsts.now }
    ensures { IsFirstIn syms.now firsts.now class result }
{
    syms[firsts[class]]
}

/// The symbols of a list, each once.
pub fn each_once(alloc: Global, syms: &[Sym]) -> Result<Vec<Sym>, AllocError>
    ensures distinct { IfOk result (λ once. IsDistinct once.items) }
    ensures same { IfOk result (λ once. (s : Sym) → Contains once.items s ↔ Contains syms.now s) }
{
    let mut once = Vec::new(alloc);
    for place in 0..syms.len() {
        let sym = symbol_at(syms, place);
        add_once(&mut once, sym)?;
    }
    Ok(once)
}

/// Adds a symbol, where it isn't there.
fn add_once(once: &mut Vec<Sym>, sym: Sym) -> Result<(), AllocError>
    requires { IsDistinct once.old.items }
    ensures distinct { OnOk result (IsDistinct once.new.items) }
    ensures same { OnOk result ((s : Sym) → Contains once.new.items s ↔ (Contains once.old.items s ⊎ (sym ≡ s))) }
{
    match place_of(once, sym) {
        Some(_) => Ok(()),
        None => {
            once.push(sym)?;
            Ok(())
        }
    }
}

/// A number for each symbol; those that have the same are told apart by no part of the groups.
fn numbered(alloc: Global, syms: &[Sym], groups: &[LangGroup]) -> Result<Vec<usize>, AllocError>
    ensures { IfOk result (λ numbers. IsDivided syms.now numbers.items (λ s t. (g : LangGroup) → Contains groups.now g → GroupIsLike g s t)) }
{
    let bounds = inside(alloc, syms)?;
    let mut numbers = vec![in alloc; 0; syms.len()]?;
    for group in groups {
        numbers = told_by_group(alloc, syms, &bounds, &group.maps, &group.contexts, numbers)?;
    }
    Ok(numbers)
}

/// Each symbol as one inside the word.
pub fn inside(alloc: Global, syms: &[Sym]) -> Result<Vec<Bound<Sym>>, AllocError>
    ensures { IfOk result (λ bounds. bounds.items ≡ map Inner syms.now) }
{
    let mut bounds = Vec::new(alloc);
    for sym in syms {
        bounds.push(Bound::Inner(*sym))?;
    }
    Ok(bounds)
}

/// New numbers, which tell apart what the mappings and contexts of a group do, too.
pub fn told_by_group(
    alloc: Global,
    syms: &[Sym],
    bounds: &[Bound<Sym>],
    maps: &[LangMap],
    contexts: &[LangContext],
    numbers: Vec<usize>,
) -> Result<Vec<usize>, AllocError>
    requires count { length numbers.items ≡ length syms.now }
    requires bounds { bounds.now ≡ map Inner syms.now }
    ensures finer { IfOk result (λ new. IsFiner numbers.items new.items) }
    ensures maps { IfOk result (λ new. IsDivided syms.now new.items (λ s t. (m : LangMap) → Contains maps.now m → MapIsLike m s t)) }
    ensures contexts { IfOk result (λ new. IsDivided bounds.now new.items (λ x y. (c : LangContext) → Contains contexts.now c → ContextIsLike c x y)) }
{
    let by_maps = told_by_maps(alloc, syms, maps, numbers)?;
    told_by_contexts(alloc, bounds, contexts, by_maps)
}

/// New numbers, which tell apart what the mappings do, too.
fn told_by_maps(
    alloc: Global,
    syms: &[Sym],
    maps: &[LangMap],
    numbers: Vec<usize>,
) -> Result<Vec<usize>, AllocError>
    requires { length numbers.items ≡ length syms.now }
    ensures finer { IfOk result (λ new. IsFiner numbers.items new.items) }
    ensures divided { IfOk result (λ new. IsDivided syms.now new.items (λ s t. (m : LangMap) → Contains maps.now m → MapIsLike m s t)) }
{
    let mut told = numbers;
    for map in maps {
        told = told_by_map(alloc, syms, &told, map)?;
    }
    Ok(told)
}

/// New numbers, which tell apart what the contexts do, too.
fn told_by_contexts(
    alloc: Global,
    bounds: &[Bound<Sym>],
    contexts: &[LangContext],
    numbers: Vec<usize>,
) -> Result<Vec<usize>, AllocError>
    requires { length numbers.items ≡ length bounds.now }
    ensures finer { IfOk result (λ new. IsFiner numbers.items new.items) }
    ensures divided { IfOk result (λ new. IsDivided bounds.now new.items (λ x y. (c : LangContext) → Contains contexts.now c → ContextIsLike c x y)) }
{
    let mut told = numbers;
    for context in contexts {
        told = told_by_context(alloc, bounds, &told, context)?;
    }
    Ok(told)
}

/// New numbers, which tell apart what a mapping does, too.
fn told_by_map(
    alloc: Global,
    syms: &[Sym],
    numbers: &[usize],
    map: &LangMap,
) -> Result<Vec<usize>, AllocError>
    requires { length numbers.now ≡ length syms.now }
    ensures finer { IfOk result (λ new. IsFiner numbers.now new.items) }
    ensures divided { IfOk result (λ new. IsDivided syms.now new.items (MapIsLike map.now)) }
{
    let by_centre = told_by(alloc, syms, numbers, &map.centre)?;
    let by_result = told_by(alloc, syms, &by_centre, &map.result)?;
    match &map.after {
        Some(after) => told_by(alloc, syms, &by_result, after),
        None => Ok(by_result),
    }
}

/// New numbers, which tell apart what a context does, too.
fn told_by_context(
    alloc: Global,
    bounds: &[Bound<Sym>],
    numbers: &[usize],
    context: &LangContext,
) -> Result<Vec<usize>, AllocError>
    requires { length numbers.now ≡ length bounds.now }
    ensures finer { IfOk result (λ new. IsFiner numbers.now new.items) }
    ensures divided { IfOk result (λ new. IsDivided bounds.now new.items (ContextIsLike context.now)) }
{
    let by_left = told_by(alloc, bounds, numbers, &context.left)?;
    told_by(alloc, bounds, &by_left, &context.right)
}

/// New numbers of letters, which are equal only where the numbers were and where the letters have equal columns in the complete
/// automaton of the language.
fn told_by<L: Letter>(
    alloc: Global,
    letters: &[L],
    numbers: &[usize],
    lang: &Lang<L>,
) -> Result<Vec<usize>, AllocError>
    requires { length numbers.now ≡ length letters.now }
    ensures finer { IfOk result (λ new. IsFiner numbers.now new.items) }
    ensures divided { IfOk result (λ new. IsDivided letters.now new.items (IsLike (Accepts lang.now))) }
{
    let accepted = lang.to_fsa(alloc)?;
    let dfa = determine(alloc, &accepted, lang.letters())?;
    let classes = columns_alike(alloc, &dfa)?;
    let none = classes.firsts.len();
    let columns = columns_of(alloc, letters, dfa.letters(), &classes.of_places, none)?;
    let both = alike_in_both(alloc, numbers, &columns)?;
    Ok(both.of_places)
}

/// For each letter the class of its column; a letter that the automaton doesn't have gets the number that is given for those.
fn columns_of<L: Letter>(
    alloc: Global,
    letters: &[L],
    own: &[L],
    of_places: &[usize],
    none: usize,
) -> Result<Vec<usize>, AllocError>
    requires { length of_places.now ≡ length own.now }
    ensures { IfOk result (λ columns. AreColumns own.now of_places.now none letters.now columns.items) }
{
    let mut columns = Vec::new(alloc);
    for letter in letters {
        columns.push(column_of(own, of_places, none, *letter))?;
    }
    Ok(columns)
}

/// The class of a letter's column.
fn column_of<L: Letter>(own: &[L], of_places: &[usize], none: usize, letter: L) -> usize
    requires { length of_places.now ≡ length own.now }
    ensures { IsColumn own.now of_places.now none letter result }
{
    match place_of(own, letter) {
        Some(place) => of_places[place],
        None => none,
    }
}

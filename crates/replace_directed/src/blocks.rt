ghost use Rattle.std.specs.Prelude.{◌≡◌, ◌↔◌, ◌++◌, ◌<◌, ℕ, IfOk, List};
ghost use Rattle.fsm_base.specs.declared.letters.Bound.{Bound};
ghost use Rattle.fsm_base.specs.declared.letters.Sym.{Sym};
ghost use Rattle.fsa.specs.Complete as complete;
ghost use Rattle.fsa.specs.Language.{Accepts};
ghost use Rattle.replace_words.specs.declared.marks.Mark.{Mark};
ghost use Rattle.replace_words.specs.Marked.{bracket, ups, lows, sames};
ghost use Rattle.replace_rules.specs.Places.{IsBody, IsBodyOf};
ghost use Rattle.replace_directed.specs.Marked.{AreBlocksOf};

use fsa::Fsa;
use fsa_rational::{concat, star, union};
use fsm_base::{Bound, Sym};
use lang_algebra::{Lang, one_letter};
use network_algebra::word;
use replace_rules::{LangMap, Written, in_marks};
use replace_words::Mark;
use std::alloc::{AllocError, Global};

/// The well-formed words: between edges, symbols that are copied and replacements by the mappings at so many places.
pub fn well_marked(
    alloc: Global,
    symbols: &[Sym],
    maps: &[LangMap],
    places: usize,
) -> Result<Fsa<Bound<Mark>>, AllocError>
    ensures { IfOk result (λ m. (w : List (Bound Mark)) → Accepts m w ↔ AreBlocksOf symbols.now maps.now places w) }
{
    let symbol = one_letter(alloc, symbols)?;
    let copied = in_marks(alloc, &symbol, Written::Copied)?;
    let replaced = replacements(alloc, maps, places)?;
    let block = union(alloc, &copied, &replaced)?;
    let blocks = star(alloc, &block)?;
    let edge = word(alloc, &[Bound::Edge])?;
    let rest = concat(alloc, &blocks, &edge)?;
    concat(alloc, &edge, &rest)
}

/// The replacements at each of so many places.
fn replacements(
    alloc: Global,
    maps: &[LangMap],
    places: usize,
) -> Result<Fsa<Bound<Mark>>, AllocError>
    ensures { IfOk result (λ m. (v : List (Bound Mark)) → Accepts m v ↔ ((k : ℕ) × (k < places) × ((b : List (Bound Mark)) × (v ≡ bracket k b) × IsBody maps.now b))) }
{
    let inside = bodies(alloc, maps)?;
    let mut all = Fsa::new(alloc)?;
    for number in 0..places {
        let more = bracketed(alloc, number, &inside)?;
        all = union(alloc, &all, &more)?;
    }
    Ok(all)
}

/// The words of an automaton between the brackets of this number.
fn bracketed(
    alloc: Global,
    number: usize,
    inside: &Fsa<Bound<Mark>>,
) -> Result<Fsa<Bound<Mark>>, AllocError>
    ensures { IfOk result (λ m. (v : List (Bound Mark)) → Accepts m v ↔ ((b : List (Bound Mark)) × (v ≡ bracket number b) × Accepts inside.now b)) }
{
    let open = word(alloc, &[Bound::Inner(Mark::Open(number))])?;
    let close = word(alloc, &[Bound::Inner(Mark::Close(number))])?;
    let rest = concat(alloc, inside, &close)?;
    concat(alloc, &open, &rest)
}

/// What stands between the brackets of a replacement by one of the mappings.
fn bodies(alloc: Global, maps: &[LangMap]) -> Result<Fsa<Bound<Mark>>, AllocError>
    ensures { IfOk result (λ m. (v : List (Bound Mark)) → Accepts m v ↔ IsBody maps.now v) }
{
    let mut all = Fsa::new(alloc)?;
    for map in maps {
        let more = body(alloc, map)?;
        all = union(alloc, &all, &more)?;
    }
    Ok(all)
}

/// What stands between the brackets of a replacement by a mapping.
fn body(alloc: Global, map: &LangMap) -> Result<Fsa<Bound<Mark>>, AllocError>
    ensures { IfOk result (λ m. (v : List (Bound Mark)) → Accepts m v ↔ IsBodyOf map.now.centre map.now.result map.now.after v) }
{
    match &map.after {
        None => plain_body(alloc, &map.centre, &map.result),
        Some(after) => markup_body(alloc, &map.result, &map.centre, after),
    }
}

/// A word of the centre on the upper side, and then one of the result on the lower side.
fn plain_body(
    alloc: Global,
    centre: &Lang<Sym>,
    put: &Lang<Sym>,
) -> Result<Fsa<Bound<Mark>>, AllocError>
    ensures { IfOk result (λ m. (v : List (Bound Mark)) → Accepts m v ↔ ((c : List Sym) × (r : List Sym) × (v ≡ ups c ++ lows r) × complete.Accepts centre.now c × complete.Accepts put.now r)) }
{
    let centre = centre.to_fsa(alloc)?;
    let put = put.to_fsa(alloc)?;
    let upper = in_marks(alloc, &centre, Written::Upper)?;
    let lower = in_marks(alloc, &put, Written::Lower)?;
    concat(alloc, &upper, &lower)
}

/// A word on the lower side, then one of the centre on both sides, and then another on the lower side.
fn markup_body(
    alloc: Global,
    before: &Lang<Sym>,
    centre: &Lang<Sym>,
    after: &Lang<Sym>,
) -> Result<Fsa<Bound<Mark>>, AllocError>
    ensures { IfOk result (λ m. (v : List (Bound Mark)) → Accepts m v ↔ ((f : List Sym) × (c : List Sym) × (a : List Sym) × (v ≡ lows f ++ sames c ++ lows a) × complete.Accepts centre.now c × complete.Accepts before.now f × complete.Accepts after.now a)) }
{
    let before = before.to_fsa(alloc)?;
    let centre = centre.to_fsa(alloc)?;
    let after = after.to_fsa(alloc)?;
    let front = in_marks(alloc, &before, Written::Lower)?;
    let kept = in_marks(alloc, &centre, Written::Both)?;
    let behind = in_marks(alloc, &after, Written::Lower)?;
    let start = concat(alloc, &front, &kept)?;
    concat(alloc, &start, &behind)
}

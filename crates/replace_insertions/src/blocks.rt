ghost use Rattle.std.specs.Prelude.{◌≡◌, ◌↔◌, ◌<◌, ℕ, IfOk, List};
ghost use Rattle.fsm_base.specs.declared.letters.Bound.{Bound};
ghost use Rattle.fsa.specs.Complete as complete;
ghost use Rattle.fsa.specs.Language.{Accepts};
ghost use Rattle.fsm_base.specs.declared.letters.Sym.{Sym};
ghost use Rattle.replace_words.specs.declared.marks.Mark.{Mark};
ghost use Rattle.replace_words.specs.Marked.{bracket, lows};
ghost use Rattle.replace_insertions.specs.Marked.{AreBlocksOf, IsInsertion};

use fsa::Fsa;
use fsa_rational::{concat, star, union};
use fsm_base::{Bound, Sym};
use lang_algebra::{Lang, one_letter};
use network_algebra::word;
use replace_rules::{Written, in_marks};
use replace_words::Mark;
use std::alloc::{AllocError, Global};

/// The well-formed words: between edges, symbols that are copied and insertions by so many places.
pub fn well_marked(
    alloc: Global,
    symbols: &[Sym],
    put: &Lang<Sym>,
    places: usize,
) -> Result<Fsa<Bound<Mark>>, AllocError>
    ensures { IfOk result (λ m. (w : List (Bound Mark)) → Accepts m w ↔ AreBlocksOf symbols.now put.now places w) }
{
    let symbol = one_letter(alloc, symbols)?;
    let copied = in_marks(alloc, &symbol, Written::Copied)?;
    let inserted = insertions(alloc, put, places)?;
    let block = union(alloc, &copied, &inserted)?;
    let blocks = star(alloc, &block)?;
    let edge = word(alloc, &[Bound::Edge])?;
    let rest = concat(alloc, &blocks, &edge)?;
    concat(alloc, &edge, &rest)
}

/// The insertions by each of so many places.
fn insertions(alloc: Global, put: &Lang<Sym>, places: usize) -> Result<Fsa<Bound<Mark>>, AllocError>
    ensures { IfOk result (λ m. (v : List (Bound Mark)) → Accepts m v ↔ ((k : ℕ) × (k < places) × IsInsertion put.now k v)) }
{
    let words = put.to_fsa(alloc)?;
    let lower = in_marks(alloc, &words, Written::Lower)?;
    let mut all = Fsa::new(alloc)?;
    for number in 0..places {
        let more = bracketed(alloc, number, &lower)?;
        all = union(alloc, &all, &more)?;
    }
    Ok(all)
}

/// The words of an automaton between the brackets of this number.
fn bracketed(
    alloc: Global,
    number: usize,
    inside: &Fsa<Bound<Mark>>,
) -> Result<Fsa<Bound<Mark>>, AllocError>
    ensures { IfOk result (λ m. (v : List (Bound Mark)) → Accepts m v ↔ ((b : List (Bound Mark)) × (v ≡ bracket number b) × Accepts inside.now b)) }
{
    let open = word(alloc, &[Bound::Inner(Mark::Open(number))])?;
    let close = word(alloc, &[Bound::Inner(Mark::Close(number))])?;
    let rest = concat(alloc, inside, &close)?;
    concat(alloc, &open, &rest)
}

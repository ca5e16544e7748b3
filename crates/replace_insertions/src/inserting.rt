ghost use Rattle.std.specs.Prelude.{IfOk};
ghost use Rattle.word_relations.specs.Relations.{AreSame};
ghost use Rattle.word_relations.specs.Words.{IsDistinct, IsOver};
ghost use Rattle.fst_algebra.specs.Relation.{IsRelated};
ghost use Rattle.network_algebra.specs.Networks.{UsesSymbols};
ghost use Rattle.expr_meaning.specs.Replacement.{IsRewritten};
ghost use Rattle.replace_words.specs.Places.{IsRewrittenAt};
ghost use Rattle.replace_insertions.specs.Insertions.{AsksBy, InsertsBy};
ghost use Rattle.replace_insertions.specs.Marked.{HoldsEverywhere, inserting};

use crate::blocks::well_marked;
use crate::filling::filled_words;
use fsa::Fsa;
use fsm_base::{Bound, Pair, Sym};
use lang_algebra::Lang;
use network_algebra::word;
use replace_rules::{LangContext, Side, every_mark, network_of};
use std::alloc::{AllocError, Global};

/// The network of an insertion, over these symbols: it relates an upper word to each lower word with a word of the language put in at
/// each place where one of the contexts holds, or at every place where there is none; where the insertion is optional, nothing may be put
/// in there too. The language is over the symbols; a context may speak of anything.
pub fn insert(
    alloc: Global,
    syms: &[Sym],
    optional: bool,
    put: &Lang<Sym>,
    side: Side,
    contexts: &[LangContext],
) -> Result<Fsa<Pair>, AllocError>
    requires distinct { IsDistinct syms.now }
    requires over { IsOver syms.now put.now.letters }
    ensures symbols { IfOk result (UsesSymbols syms.now) }
    ensures relation { IfOk result (λ m. AreSame (IsRelated m) (IsRewritten syms.now (InsertsBy put.now side contexts.now) (AsksBy side contexts.now) optional)) }
{
    if contexts.is_empty() {
        let mut everywhere = Vec::new(alloc);
        everywhere.push(anywhere(alloc)?)?;
        return inserted(alloc, syms, optional, put, side, &everywhere);
    }
    inserted(alloc, syms, optional, put, side, contexts)
}

/// A context that holds everywhere.
fn anywhere(alloc: Global) -> Result<LangContext, AllocError>
    ensures { IfOk result HoldsEverywhere }
{
    let empty = word(alloc, &[])?;
    let edge = [Bound::Edge];
    let left = Lang::of(alloc, &edge, &empty)?;
    let right = Lang::of(alloc, &edge, &empty)?;
    Ok(LangContext { left, right })
}

/// The network of an insertion at each place where one of the contexts holds.
fn inserted(
    alloc: Global,
    syms: &[Sym],
    optional: bool,
    put: &Lang<Sym>,
    side: Side,
    contexts: &[LangContext],
) -> Result<Fsa<Pair>, AllocError>
    requires distinct { IsDistinct syms.now }
    requires over { IsOver syms.now put.now.letters }
    ensures symbols { IfOk result (UsesSymbols syms.now) }
    ensures relation { IfOk result (λ m. AreSame (IsRelated m) (IsRewrittenAt (inserting put.now side) contexts.now syms.now optional)) }
{
    let marks = every_mark(alloc, syms, contexts.len())?;
    let well = well_marked(alloc, syms, put, contexts.len())?;
    let words = filled_words(alloc, &marks, optional, side, contexts, &well)?;
    network_of(alloc, &words)
}

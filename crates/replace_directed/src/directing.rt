ghost use Rattle.std.specs.Prelude.{◌↔◌, IfOk, List, All, length};
ghost use Rattle.fsm_base.specs.declared.letters.Bound.{Bound};
ghost use Rattle.word_relations.specs.Relations.{AreSame};
ghost use Rattle.word_relations.specs.Words.{IsDistinct};
ghost use Rattle.fsa.specs.Complete.{Accepts};
ghost use Rattle.fst_algebra.specs.Relation.{IsRelated};
ghost use Rattle.network_algebra.specs.Networks.{UsesSymbols};
ghost use Rattle.replace_words.specs.declared.marks.Mark.{Mark};
ghost use Rattle.replace_words.specs.Places.{ReplacesAt};
ghost use Rattle.replace_rules.specs.Letters.{IsMarkOf};
ghost use Rattle.expr_meaning.specs.Directed.{IsDirectedBy};
ghost use Rattle.directed_words.specs.Laws.{MatchesAt, from_left, from_right};
ghost use Rattle.directed_words.specs.Marked.{IsMarkedFromLeft};
ghost use Rattle.replace_directed.specs.Directed.{AreOver, IsMatch, ReplacesIn};
ghost use Rattle.replace_directed.specs.Marked.{HoldsEverywhere, directing};

use crate::alike::firsts_of;
use crate::blocks::well_marked;
use crate::keeping::kept_words;
use crate::turning::{turned_contexts, turned_maps, turned_network};
use directed_words::Length;
use fsa::Fsa;
use fsm_base::{Bound, Pair, Sym};
use lang_algebra::Lang;
use network_algebra::word;
use regex_ast::Way;
use replace_rules::{LangContext, LangMap, each_once, every_mark, network_by_firsts};
use replace_words::Mark;
use std::alloc::{AllocError, Global};

/// The network of a directed rule, over these symbols: it relates an upper word to each lower word that the mappings make of it where, of
/// the matches that begin at one place, or end there, the longest is replaced, or the shortest, and no symbol is copied at such a place.
/// What mappings speak of is over the symbols, and no centre has the empty word; a context may speak of anything, and is read on the upper
/// side. Where there is no context the mappings hold everywhere.
pub fn directed(
    alloc: Global,
    syms: &[Sym],
    way: Way,
    maps: &[LangMap],
    contexts: &[LangContext],
) -> Result<Fsa<Pair>, AllocError>
    requires distinct { IsDistinct syms.now }
    requires over { AreOver syms.now maps.now }
    ensures symbols { IfOk result (UsesSymbols syms.now) }
    ensures relation { IfOk result (λ m. AreSame (IsRelated m) (IsDirectedBy (IsMatch maps.now contexts.now) syms.now (ReplacesIn maps.now contexts.now) way)) }
{
    match way {
        Way::LeftLongest => directed_from_left(alloc, syms, Length::Longest, maps, contexts),
        Way::LeftShortest => directed_from_left(alloc, syms, Length::Shortest, maps, contexts),
        Way::RightLongest => directed_from_right(alloc, syms, Length::Longest, maps, contexts),
        Way::RightShortest => directed_from_right(alloc, syms, Length::Shortest, maps, contexts),
    }
}

/// The network of a rule from the right: that of the rule turned round, from the left, turned back.
fn directed_from_right(
    alloc: Global,
    syms: &[Sym],
    size: Length,
    maps: &[LangMap],
    contexts: &[LangContext],
) -> Result<Fsa<Pair>, AllocError>
    requires distinct { IsDistinct syms.now }
    requires over { AreOver syms.now maps.now }
    ensures symbols { IfOk result (UsesSymbols syms.now) }
    ensures relation { IfOk result (λ m. AreSame (IsRelated m) (IsDirectedBy (IsMatch maps.now contexts.now) syms.now (ReplacesIn maps.now contexts.now) (from_right size))) }
{
    let around = turned_maps(alloc, maps)?;
    let beside = turned_contexts(alloc, contexts)?;
    let turned = directed_from_left(alloc, syms, size, &around, &beside)?;
    turned_network(alloc, &turned)
}

/// The network of a rule from the left.
fn directed_from_left(
    alloc: Global,
    syms: &[Sym],
    size: Length,
    maps: &[LangMap],
    contexts: &[LangContext],
) -> Result<Fsa<Pair>, AllocError>
    requires distinct { IsDistinct syms.now }
    requires over { AreOver syms.now maps.now }
    ensures symbols { IfOk result (UsesSymbols syms.now) }
    ensures relation { IfOk result (λ m. AreSame (IsRelated m) (IsDirectedBy (IsMatch maps.now contexts.now) syms.now (ReplacesIn maps.now contexts.now) (from_left size))) }
{
    if contexts.is_empty() {
        let mut everywhere = Vec::new(alloc);
        everywhere.push(anywhere(alloc)?)?;
        return directed_at(alloc, syms, size, maps, &everywhere);
    }
    directed_at(alloc, syms, size, maps, contexts)
}

/// A context that holds everywhere.
fn anywhere(alloc: Global) -> Result<LangContext, AllocError>
    ensures { IfOk result HoldsEverywhere }
{
    let empty = word(alloc, &[])?;
    let edge = [Bound::Edge];
    let left = Lang::of(alloc, &edge, &empty)?;
    let right = Lang::of(alloc, &edge, &empty)?;
    Ok(LangContext { left, right })
}

/// The network of a rule from the left, where one of the contexts holds.
fn directed_at(
    alloc: Global,
    syms: &[Sym],
    size: Length,
    maps: &[LangMap],
    contexts: &[LangContext],
) -> Result<Fsa<Pair>, AllocError>
    requires distinct { IsDistinct syms.now }
    requires over { AreOver syms.now maps.now }
    ensures symbols { IfOk result (UsesSymbols syms.now) }
    ensures relation { IfOk result (λ m. AreSame (IsRelated m) (IsDirectedBy (MatchesAt (directing maps.now) contexts.now) syms.now (ReplacesAt (directing maps.now) contexts.now) (from_left size))) }
{
    let firsts = firsts_of(alloc, syms, maps, contexts)?;
    let once = each_once(alloc, &firsts)?;
    let words = marked_words(alloc, &once, size, maps, contexts)?;
    network_by_firsts(alloc, syms, &firsts, contexts.len(), &words)
}

/// The words of marks of these symbols that keep what the rule asks at each of the contexts.
fn marked_words(
    alloc: Global,
    syms: &[Sym],
    size: Length,
    maps: &[LangMap],
    contexts: &[LangContext],
) -> Result<Lang<Bound<Mark>>, AllocError>
    requires { IsDistinct syms.now }
    ensures { IfOk result (λ words. (w : List (Bound Mark)) → Accepts words w ↔ (All (IsMarkOf syms.now (length contexts.now)) w × IsMarkedFromLeft (directing maps.now) syms.now contexts.now size w)) }
{
    let marks = every_mark(alloc, syms, contexts.len())?;
    let well = well_marked(alloc, syms, maps, contexts.len())?;
    kept_words(alloc, &marks, size, maps, contexts, &well)
}

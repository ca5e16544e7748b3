ghost use Rattle.std.specs.Prelude.{◌↔◌, IfOk, List, All, length};
ghost use Rattle.fsm_base.specs.declared.letters.Bound.{Bound};
ghost use Rattle.replace_words.specs.declared.marks.Mark.{Mark};
ghost use Rattle.replace_rules.specs.Letters.{IsMarkOf};
ghost use Rattle.replace_words.specs.Marked.{IsMarked};
ghost use Rattle.replace_rules.specs.Places.{rules_by};
ghost use Rattle.fsa.specs.Complete.{Accepts};
ghost use Rattle.word_relations.specs.Relations.{AreSame};
ghost use Rattle.word_relations.specs.Words.{IsDistinct};
ghost use Rattle.fst_algebra.specs.Relation.{IsRelated};
ghost use Rattle.network_algebra.specs.Networks.{UsesSymbols};
ghost use Rattle.expr_meaning.specs.Replacement.{IsRewritten};
ghost use Rattle.replace_rules.specs.Rules.{AppliesBy, AreMapsOver, ReplacesBy};

use crate::alike::{each_once, firsts_of};
use crate::blocks::well_marked;
use crate::keeping::kept_words;
use crate::letters::every_mark;
use crate::network::network_by_firsts;
use crate::places::{Place, places_of};
use crate::rules::LangGroup;
use fsa::Fsa;
use fsm_base::{Bound, Pair, Sym};
use lang_algebra::Lang;
use replace_words::Mark;
use std::alloc::{AllocError, Global};

/// The network of groups of rules, over these symbols: it relates an upper word to each lower word that the rules make of it, or may
/// make where they are optional. What mappings speak of is over the symbols, and no centre has the empty word; a context may speak of
/// anything.
pub fn replace(
    alloc: Global,
    syms: &[Sym],
    optional: bool,
    groups: &[LangGroup],
) -> Result<Fsa<Pair>, AllocError>
    requires distinct { IsDistinct syms.now }
    requires over { AreMapsOver syms.now groups.now }
    ensures symbols { IfOk result (UsesSymbols syms.now) }
    ensures relation { IfOk result (λ m. AreSame (IsRelated m) (IsRewritten syms.now (ReplacesBy groups.now) (AppliesBy groups.now) optional)) }
{
    let firsts = firsts_of(alloc, syms, groups)?;
    let once = each_once(alloc, &firsts)?;
    let places = places_of(alloc, groups)?;
    let words = marked_words(alloc, &once, optional, &places)?;
    network_by_firsts(alloc, syms, &firsts, places.len(), &words)
}

/// The words of marks of these symbols that keep what the rules ask at each of the places.
fn marked_words(
    alloc: Global,
    syms: &[Sym],
    optional: bool,
    places: &[Place],
) -> Result<Lang<Bound<Mark>>, AllocError>
    requires { IsDistinct syms.now }
    ensures { IfOk result (λ words. (w : List (Bound Mark)) → Accepts words w ↔ (All (IsMarkOf syms.now (length places.now)) w × IsMarked rules_by syms.now places.now optional w)) }
{
    let marks = every_mark(alloc, syms, places.len())?;
    let well = well_marked(alloc, syms, places)?;
    kept_words(alloc, &marks, optional, places, &well)
}

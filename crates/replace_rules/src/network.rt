ghost use Rattle.std.specs.Prelude.{◌≡◌, ◌↔◌, IfOk, List, All, map, length};
ghost use Rattle.std.specs.List.{filter_map};
ghost use Rattle.fsm_base.specs.declared.letters.Bound.{Bound};
ghost use Rattle.fsm_base.specs.declared.letters.Sym.{Sym};
ghost use Rattle.word_relations.specs.Words.{IsOver};
ghost use Rattle.fsa.specs.Complete.{Accepts};
ghost use Rattle.fsa.specs.Language as language;
ghost use Rattle.fst_algebra.specs.Relation.{IsRelated};
ghost use Rattle.network_algebra.specs.Networks.{UsesSymbols};
ghost use Rattle.replace_words.specs.declared.marks.Mark.{Mark};
ghost use Rattle.replace_words.specs.Marked.{upper_of, lower_of, symbol_of};
ghost use Rattle.replace_words.specs.Firsts.{first_mark};
ghost use Rattle.replace_rules.specs.Letters.{AreMarksOf, IsMarkOf};

use crate::letters::every_mark;
use crate::rows::{first_rows, pair_rows};
use fsa::Fsa;
use fsa_rational::{image, preimage};
use fsa_reduce::reduced;
use fsm_base::{Bound, Pair, Sym};
use lang_algebra::Lang;
use replace_words::Mark;
use std::alloc::{AllocError, Global};

/// The network of the two sides of words of marks.
pub fn network_of(alloc: Global, words: &Lang<Bound<Mark>>) -> Result<Fsa<Pair>, AllocError>
    ensures symbols { IfOk result (λ m. (symbols : List Sym) → AreMarksOf symbols words.now.letters → UsesSymbols symbols m) }
    ensures relation { IfOk result (λ m. (u w : List Sym) → IsRelated m u w
        ↔ ((z : List (Bound Mark)) × Accepts words.now z × (filter_map (symbol_of upper_of) z ≡ u) × (filter_map (symbol_of lower_of) z ≡ w))) }
{
    let accepted = words.to_fsa(alloc)?;
    sides_of(alloc, words.letters(), &accepted)
}

/// The network of the two sides of those words of marks of which the word of the firsts is in the language. The firsts of the symbols
/// are given in the symbols' order, and there are so many places.
pub fn network_by_firsts(
    alloc: Global,
    syms: &[Sym],
    firsts: &[Sym],
    places: usize,
    words: &Lang<Bound<Mark>>,
) -> Result<Fsa<Pair>, AllocError>
    requires { length firsts.now ≡ length syms.now }
    ensures symbols { IfOk result (UsesSymbols syms.now) }
    ensures relation { IfOk result (λ m. (first : Sym → Sym) → firsts.now ≡ map first syms.now → (u w : List Sym) → IsRelated m u w
        ↔ ((z : List (Bound Mark)) × (All (IsMarkOf syms.now places) z × Accepts words.now (map (first_mark first) z)) × (filter_map (symbol_of upper_of) z ≡ u) × (filter_map (symbol_of lower_of) z ≡ w))) }
{
    let marks = every_mark(alloc, syms, places)?;
    let rows = first_rows(alloc, syms, firsts, places)?;
    let accepted = words.to_fsa(alloc)?;
    let all = preimage(alloc, &accepted, &rows)?;
    sides_of(alloc, &marks, &all)
}

/// The network of the two sides of those words of an automaton that have no other letters than these marks.
fn sides_of(
    alloc: Global,
    marks: &[Bound<Mark>],
    words: &Fsa<Bound<Mark>>,
) -> Result<Fsa<Pair>, AllocError>
    ensures symbols { IfOk result (λ m. (symbols : List Sym) → AreMarksOf symbols marks.now → UsesSymbols symbols m) }
    ensures relation { IfOk result (λ m. (u w : List Sym) → IsRelated m u w
        ↔ ((z : List (Bound Mark)) × (IsOver marks.now z × language.Accepts words.now z) × (filter_map (symbol_of upper_of) z ≡ u) × (filter_map (symbol_of lower_of) z ≡ w))) }
{
    let rows = pair_rows(alloc, marks)?;
    let pairs = image(alloc, words, &rows)?;
    reduced(alloc, &pairs)
}

ghost use Rattle.std.specs.Prelude.{◌≡◌, IfOk, [], ◌∷◌};
ghost use Rattle.word_relations.specs.Relations.{AreSame};
ghost use Rattle.word_relations.specs.Words.{IsDistinct};
ghost use Rattle.fst_algebra.specs.Relation.{IsRelated};
ghost use Rattle.lang_algebra.specs.Languages.{IsLang};
ghost use Rattle.expr_meaning.specs.Replacement.{IsRewritten};
ghost use Rattle.network_algebra.specs.Networks.{UsesSymbols};
ghost use Rattle.replace_rules.specs.declared.rules.LangGroup.{LangGroup};
ghost use Rattle.replace_rules.specs.declared.rules.LangMap.{LangMap};
ghost use Rattle.replace_insertions.specs.Insertions.{AsksBy, InsertsBy};
ghost use Rattle.network_expr.specs.Rules.{IsOneMapping};

use fsa::Fsa;
use fsm_base::{Pair, Sym};
use lang_algebra::Lang;
use network_algebra::word;
use replace_insertions::insert;
use replace_rules::LangGroup;
use std::alloc::{AllocError, Global};

/// The language of the empty word alone, over the symbols of an alphabet.
pub fn empty_word(alloc: Global, alphabet: &[Sym]) -> Result<Lang<Sym>, AllocError>
    requires { IsDistinct alphabet.now }
    ensures { IfOk result (IsLang alphabet.now (λ u. u ≡ [])) }
{
    Lang::of(alloc, alphabet, &word(alloc, &[])?)
}

/// The network of rules that are one insertion: of the result of the one mapping of the one group.
pub fn insertion(
    alloc: Global,
    alphabet: &[Sym],
    optional: bool,
    groups: &[LangGroup],
) -> Result<Fsa<Pair>, AllocError>
    requires distinct { IsDistinct alphabet.now }
    requires one { IsOneMapping alphabet.now groups.now }
    ensures symbols { IfOk result (UsesSymbols alphabet.now) }
    ensures relation { IfOk result (λ n. (g : LangGroup) (m : LangMap) → groups.now ≡ g ∷ [] → g.maps.items ≡ m ∷ []
        → AreSame (IsRelated n) (IsRewritten alphabet.now (InsertsBy m.result g.side g.contexts.items) (AsksBy g.side g.contexts.items) optional)) }
{
    let group = &groups[0];
    insert(
        alloc,
        alphabet,
        optional,
        &group.maps[0].result,
        group.side,
        &group.contexts,
    )
}

ghost use Rattle.std.specs.Prelude.{IfOk};
ghost use Rattle.word_relations.specs.Relations.{AreSame};
ghost use Rattle.fst_algebra.specs.Relation.{IsRelated};
ghost use Rattle.lang_algebra.specs.Languages.{IsLang};
ghost use Rattle.regex_ast.specs.Terms.{term};
ghost use Rattle.expr_kinds.specs.Kinds.{Fits, IsLanguage};
ghost use Rattle.network_expr.specs.Parts.{IsGround, kinds, stands};
ghost use Rattle.expr_meaning.specs.Meaning.{In, Relates};
ghost use Rattle.network_algebra.specs.Networks.{UsesSymbols, all_letters};
ghost use Rattle.network_expr.specs.Built.{IsBuiltOver};

use crate::build::{network_of, words_of};
use crate::parts::Part;
use fsa::Fsa;
use fsm_base::{Bound, Pair, Sym};
use lang_algebra::Lang;
use network_sets::language;
use regex_ast::{Atom, Expr};
use std::alloc::{AllocError, Global};

/// The language of an expression that is one by its form, over the edge and the symbols of an alphabet.
pub fn language_of(
    alloc: Global,
    alphabet: &[Sym],
    parts: &[Part],
    expr: &Expr<Atom>,
) -> Result<Lang<Bound<Sym>>, AllocError>
    requires ground { IsGround alphabet.now parts.now }
    requires built { IsBuiltOver parts.now alphabet.now (term expr.now) }
    requires fits { Fits (kinds parts.now) (term expr.now) }
    requires language { IsLanguage (kinds parts.now) (term expr.now) }
    ensures { IfOk result (IsLang (all_letters alphabet.now) (In (stands parts.now) alphabet.now (term expr.now))) }
{
    language(alloc, alphabet, &words_of(alloc, alphabet, parts, expr)?)
}

/// The transducer of what an expression relates, over the symbols of an alphabet. A language relates each of its
/// words to itself.
pub fn relation_of(
    alloc: Global,
    alphabet: &[Sym],
    parts: &[Part],
    expr: &Expr<Atom>,
) -> Result<Fsa<Pair>, AllocError>
    requires ground { IsGround alphabet.now parts.now }
    requires built { IsBuiltOver parts.now alphabet.now (term expr.now) }
    requires fits { Fits (kinds parts.now) (term expr.now) }
    ensures symbols { IfOk result (UsesSymbols alphabet.now) }
    ensures relation { IfOk result (λ m. AreSame (IsRelated m) (Relates (stands parts.now) alphabet.now (term expr.now))) }
{
    network_of(alloc, alphabet, parts, expr)?.into_pairs(alloc)
}

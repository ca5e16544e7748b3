ghost use Rattle.std.specs.Prelude.{◌≡◌, IfOk};
ghost use Rattle.expr_meaning.specs.Meaning.{In};
ghost use Rattle.lang_algebra.specs.Languages.{IsLang};
ghost use Rattle.network_algebra.specs.Networks.{all_letters};
ghost use Rattle.network_algebra.specs.Renamed.{IsRenamed};
ghost use Rattle.network_grammars.specs.PairMeaning.{IsScope, pair_at, stands};
ghost use Rattle.grammar_pairs.specs.Plain.{IsPairForm, term_of};

use crate::scope::Scope;
use crate::words::words_of;
use fsm_base::{Bound, Pair, Sym};
use lang_algebra::Lang;
use network_algebra::{Renaming, renamed};
use regex_ast::{Atom, Expr, PairPart};
use std::alloc::{AllocError, Global};
use two_level::every_letter;

/// The pairs in place of their numbers.
#[derive(Drop)]
struct AsPairs<'a> {
    /// The pairs.
    pairs: &'a [Pair],
}

impl Renaming<Bound<Sym>, Bound<Pair>> for AsPairs<'_> {
    ghost name = { λ renaming x. pair_at renaming.pairs.now x };

    fn name_of(&self, letter: Bound<Sym>) -> Option<Bound<Pair>> {
        match letter {
            Bound::Edge => Some(Bound::Edge),
            Bound::Inner(number) => match self.pairs.get(number.0 as usize) {
                Some(pair) => Some(Bound::Inner(*pair)),
                None => None,
            },
        }
    }
}

/// The language of an expression over pairs, over the edge and the feasible pairs.
pub fn language_of(
    alloc: Global,
    scope: &Scope,
    expr: &Expr<PairPart<Atom>>,
) -> Result<Lang<Bound<Pair>>, AllocError>
    requires scope { IsScope scope.now }
    requires form { IsPairForm (term_of expr.now) }
    ensures { IfOk result (IsLang (all_letters scope.now.pairs) (IsRenamed (pair_at scope.now.pairs) (In (stands scope.now) scope.now.numbers.items (term_of expr.now)))) }
{
    let words = words_of(alloc, scope, expr)?;
    let pairs = scope.pairs.as_slice();
    let over_pairs = renamed(alloc, &words, &AsPairs { pairs })?;
    Lang::of(alloc, &every_letter(alloc, pairs)?, &over_pairs)
}

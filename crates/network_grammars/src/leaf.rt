ghost use Rattle.std.specs.Prelude.{◌↔◌, IfOk, List};
ghost use Rattle.fsm_base.specs.declared.letters.Bound.{Bound};
ghost use Rattle.fsm_base.specs.declared.letters.Sym.{Sym};
ghost use Rattle.fsa.specs.Language.{Accepts};
ghost use Rattle.expr_meaning.specs.Operators.{WithEdge, inner};
ghost use Rattle.network_algebra.specs.Networks.{UsesOnly, all_letters};
ghost use Rattle.word_relations.specs.Operations.{IsOneLetter};
ghost use Rattle.network_grammars.specs.PairMeaning.{HasWordsOf, IsScope};
ghost use Rattle.grammar_pairs.specs.Plain.{part_of};
ghost use Rattle.regex_ast.specs.Terms.{atom};

use crate::scope::Scope;
use fsa::Fsa;
use fsm_base::{Bound, Sym};
use grammar_pairs::{numbers_fitting, numbers_twice};
use lang_algebra::one_letter;
use network_algebra::{inner_letters, inside, with_edge};
use regex_ast::{Atom, PairPart};
use std::alloc::{AllocError, Global};

/// The automaton of one of these numbers.
pub fn one_of(alloc: Global, numbers: &[Sym]) -> Result<Fsa<Bound<Sym>>, AllocError>
    ensures letters { IfOk result (UsesOnly (inner numbers.now)) }
    ensures words { IfOk result (λ m. (w : List (Bound Sym)) → Accepts m w ↔ IsOneLetter (inner numbers.now) w) }
{
    one_letter(alloc, &inner_letters(alloc, numbers)?)
}

/// The words of a language that are without the edge.
fn without_edge(alloc: Global, words: &Fsa<Bound<Sym>>) -> Result<Fsa<Bound<Sym>>, AllocError>
    ensures letters { IfOk result (λ m. (symbols : List Sym) → UsesOnly (all_letters symbols) words.now → UsesOnly (all_letters symbols) m) }
    ensures words { IfOk result (λ m. (w : List (Bound Sym)) → Accepts m w ↔ WithEdge (λ u. Accepts words.now (inner u)) w) }
{
    with_edge(alloc, &inside(alloc, words)?)
}

/// The automaton of a leaf over the numbers of pairs.
pub fn leaf(
    alloc: Global,
    scope: &Scope,
    part: &PairPart<Atom>,
) -> Result<Fsa<Bound<Sym>>, AllocError>
    requires { IsScope scope.now }
    ensures letters { IfOk result (UsesOnly (all_letters scope.now.numbers.items)) }
    ensures words { IfOk result (HasWordsOf scope.now (atom (part_of part.now))) }
{
    match part {
        PairPart::Atom(pair) => {
            let numbers = numbers_fitting(alloc, &scope.pairs, &scope.sets, pair)?;
            one_of(alloc, &numbers)
        }
        PairPart::Named(name) => match scope.definitions.get(name.as_str()) {
            Some(words) => without_edge(alloc, words),
            None => {
                let numbers = numbers_twice(alloc, &scope.pairs, &scope.sets, name.as_str())?;
                one_of(alloc, &numbers)
            }
        },
    }
}

ghost use Rattle.std.specs.Prelude.{◌∷◌, [], ◌↔◌, ◌⊎◌, All, IfOk, IsTrue, List};
ghost use Rattle.fsm_base.specs.declared.letters.Bound.{Bound};
ghost use Rattle.fsm_base.specs.declared.letters.Sym.{Sym};
ghost use Rattle.fsa.specs.Language.{Accepts};
ghost use Rattle.regex_ast.specs.Terms.{concat, ignore};
ghost use Rattle.expr_meaning.specs.Meaning.{InChain, InIgnoring};
ghost use Rattle.expr_meaning.specs.Operators.{AreSuffixed, IsEmpty, IsItself};
ghost use Rattle.network_algebra.specs.Networks.{UsesOnly, all_letters};
ghost use Rattle.network_grammars.specs.PairMeaning.{HasWordsOf, IsScope, stands};
ghost use Rattle.grammar_pairs.specs.Plain.{ArePairForms, IsPairForm, LinksArePairForms, links_in, term_of, terms_in};
ghost use Rattle.network_grammars.specs.Rows.{IsChoice};

use crate::leaf::{leaf, one_of};
use crate::scope::Scope;
use fsa::Fsa;
use fsa_reduce::reduced;
use fsm_base::{Bound, Sym};
use network_algebra::{Network, word};
use network_sets::{apply_prefixes, apply_suffixes, both, ignore, minus, not_one_times};
use regex_ast::{Atom, Expr, Link, PairPart, Suffix};
use std::alloc::{AllocError, Global};

/// The automaton of an expression, over the numbers of pairs.
#[cycle(build)]
pub fn words_of(
    alloc: Global,
    scope: &Scope,
    expr: &Expr<PairPart<Atom>>,
) -> Result<Fsa<Bound<Sym>>, AllocError>
    requires scope { IsScope scope.now }
    requires form { IsPairForm (term_of expr.now) }
    ensures letters { IfOk result (UsesOnly (all_letters scope.now.numbers.items)) }
    ensures words { IfOk result (HasWordsOf scope.now (term_of expr.now)) }
{
    match expr {
        Expr::Empty => word(alloc, &[]),
        Expr::Any => one_of(alloc, &scope.numbers),
        Expr::Edge => word(alloc, &[Bound::Edge]),
        Expr::Atom(part) => leaf(alloc, scope, part),
        Expr::Group(inner) => words_of(alloc, scope, inner),
        Expr::Maybe(inner) => perhaps(alloc, &words_of(alloc, scope, inner)?),
        Expr::NotOne(count, inner) => {
            let words = words_of(alloc, scope, inner)?;
            not_one_times(alloc, &scope.numbers, *count, words)
        }
        Expr::Suffixed(inner, suffixes) => {
            with_suffixes(alloc, words_of(alloc, scope, inner)?, suffixes)
        }
        Expr::Prefixed(prefixes, inner) => {
            let words = words_of(alloc, scope, inner)?;
            apply_prefixes(alloc, &scope.numbers, prefixes, words)
        }
        Expr::Ignore(operands) => ignored(alloc, scope, operands),
        Expr::Concat(operands) => reduced(alloc, &concat_operands(alloc, scope, operands)?),
        Expr::Chain(first, links) => {
            let words = words_of(alloc, scope, first)?;
            in_chain(alloc, scope, words, links)
        }
        Expr::Letters(_)
        | Expr::Cross(_, _)
        | Expr::Only(_, _)
        | Expr::Rules(_)
        | Expr::Directed(_)
        | Expr::Steps(_, _) => unreachable!(),
    }
}

/// The empty word, or a word of a language.
fn perhaps(alloc: Global, words: &Fsa<Bound<Sym>>) -> Result<Fsa<Bound<Sym>>, AllocError>
    ensures letters { IfOk result (λ m. (symbols : List Sym) → UsesOnly (all_letters symbols) words.now → UsesOnly (all_letters symbols) m) }
    ensures words { IfOk result (λ m. (w : List (Bound Sym)) → Accepts m w ↔ (IsEmpty w ⊎ Accepts words.now w)) }
{
    let empty = word(alloc, &[])?;
    reduced(alloc, &fsa_rational::union(alloc, &empty, words)?)
}

/// A language with suffixes, from left to right. With each it is a language.
fn with_suffixes(
    alloc: Global,
    words: Fsa<Bound<Sym>>,
    suffixes: &[Suffix],
) -> Result<Fsa<Bound<Sym>>, AllocError>
    ensures letters { IfOk result (λ m. (symbols : List Sym) → UsesOnly (all_letters symbols) words → UsesOnly (all_letters symbols) m) }
    ensures words { IfOk result (λ m. (w : List (Bound Sym)) → Accepts m w ↔ AreSuffixed suffixes.now (Accepts words) (IsItself (Accepts words)) w) }
{
    Ok(apply_suffixes(alloc, Network::Words(words), suffixes)?.into_words())
}

/// The automaton of a row of `/`, from left to right.
#[cycle(build)]
fn ignored(
    alloc: Global,
    scope: &Scope,
    operands: &[Expr<PairPart<Atom>>],
) -> Result<Fsa<Bound<Sym>>, AllocError>
    requires scope { IsScope scope.now }
    requires form { ArePairForms (terms_in operands.now) }
    ensures letters { IfOk result (UsesOnly (all_letters scope.now.numbers.items)) }
    ensures words { IfOk result (HasWordsOf scope.now (ignore (terms_in operands.now))) }
{
    match operands.split_first() {
        None => word(alloc, &[]),
        Some((first, others)) => {
            let words = words_of(alloc, scope, first)?;
            in_ignoring(alloc, scope, words, others)
        }
    }
}

/// A language with words of further ones put in, one after another.
#[cycle(build)]
fn in_ignoring(
    alloc: Global,
    scope: &Scope,
    before: Fsa<Bound<Sym>>,
    operands: &[Expr<PairPart<Atom>>],
) -> Result<Fsa<Bound<Sym>>, AllocError>
    requires scope { IsScope scope.now }
    requires before { UsesOnly (all_letters scope.now.numbers.items) before }
    requires form { ArePairForms (terms_in operands.now) }
    ensures letters { IfOk result (UsesOnly (all_letters scope.now.numbers.items)) }
    ensures words { IfOk result (λ m. (w : List (Bound Sym)) → Accepts m w ↔ InIgnoring (stands scope.now) scope.now.numbers.items (Accepts before) (terms_in operands.now) w) }
{
    let mut around = before;
    'operands: for operand in operands {
        let words = words_of(alloc, scope, operand)?;
        around = ignore(alloc, &scope.numbers, &around, &words)?;
    }
    Ok(around)
}

/// The automaton of expressions side by side, not reduced. They are joined by halves, so that each is copied a few times only.
#[cycle(build)]
fn concat_operands(
    alloc: Global,
    scope: &Scope,
    operands: &[Expr<PairPart<Atom>>],
) -> Result<Fsa<Bound<Sym>>, AllocError>
    requires scope { IsScope scope.now }
    requires form { ArePairForms (terms_in operands.now) }
    ensures letters { IfOk result (UsesOnly (all_letters scope.now.numbers.items)) }
    ensures words { IfOk result (HasWordsOf scope.now (concat (terms_in operands.now))) }
{
    match operands {
        [] => word(alloc, &[]),
        [operand] => words_of(alloc, scope, operand),
        _ => {
            let (front, back) = operands.split_at(operands.len() / 2);
            let first = concat_operands(alloc, scope, front)?;
            let second = concat_operands(alloc, scope, back)?;
            fsa_rational::concat(alloc, &first, &second)
        }
    }
}

/// The automaton of what stands before and a row of `|`, `&` and `-`, from left to right. Stretches of `|` are joined by halves.
#[cycle(build)]
fn in_chain(
    alloc: Global,
    scope: &Scope,
    before: Fsa<Bound<Sym>>,
    links: &[Link<PairPart<Atom>>],
) -> Result<Fsa<Bound<Sym>>, AllocError>
    requires scope { IsScope scope.now }
    requires before { UsesOnly (all_letters scope.now.numbers.items) before }
    requires form { LinksArePairForms (links_in links.now) }
    ensures letters { IfOk result (UsesOnly (all_letters scope.now.numbers.items)) }
    ensures words { IfOk result (λ m. (w : List (Bound Sym)) → Accepts m w ↔ InChain (stands scope.now) scope.now.numbers.items (Accepts before) (links_in links.now) w) }
{
    match links {
        [] => Ok(before),
        _ if are_choices(links) => {
            let choice = union_operands(alloc, scope, links)?;
            reduced(alloc, &fsa_rational::union(alloc, &before, &choice)?)
        }
        [link] => linked(alloc, scope, &before, link),
        _ => {
            let (front, back) = links.split_at(links.len() / 2);
            let first = in_chain(alloc, scope, before, front)?;
            in_chain(alloc, scope, first, back)
        }
    }
}

/// Whether the operator is `|`.
fn is_choice(link: &Link<PairPart<Atom>>) -> bool
    ensures { IsTrue result ↔ IsChoice link.now }
{
    matches!(link, Link::Or(_))
}

/// Whether each operator is `|`.
fn are_choices(links: &[Link<PairPart<Atom>>]) -> bool
    ensures { IsTrue result ↔ All IsChoice links.now }
{
    links.iter().all(is_choice)
}

/// What an operand with its operator makes of what stands before.
#[cycle(build)]
fn linked(
    alloc: Global,
    scope: &Scope,
    before: &Fsa<Bound<Sym>>,
    link: &Link<PairPart<Atom>>,
) -> Result<Fsa<Bound<Sym>>, AllocError>
    requires scope { IsScope scope.now }
    requires before { UsesOnly (all_letters scope.now.numbers.items) before.now }
    requires form { LinksArePairForms (links_in (link.now ∷ [])) }
    ensures letters { IfOk result (UsesOnly (all_letters scope.now.numbers.items)) }
    ensures words { IfOk result (λ m. (w : List (Bound Sym)) → Accepts m w ↔ InChain (stands scope.now) scope.now.numbers.items (Accepts before.now) (links_in (link.now ∷ [])) w) }
{
    match link {
        Link::Or(operand) => {
            let words = words_of(alloc, scope, operand)?;
            fsa_rational::union(alloc, before, &words)
        }
        Link::And(operand) => {
            let words = words_of(alloc, scope, operand)?;
            both(alloc, &scope.numbers, before, &words)
        }
        Link::Less(operand) => {
            let words = words_of(alloc, scope, operand)?;
            minus(alloc, &scope.numbers, before, &words)
        }
    }
}

/// The automaton of any of the operands of a row of `|`, joined by halves and not reduced.
#[cycle(build)]
fn union_operands(
    alloc: Global,
    scope: &Scope,
    links: &[Link<PairPart<Atom>>],
) -> Result<Fsa<Bound<Sym>>, AllocError>
    requires scope { IsScope scope.now }
    requires choices { All IsChoice links.now }
    requires form { LinksArePairForms (links_in links.now) }
    ensures letters { IfOk result (UsesOnly (all_letters scope.now.numbers.items)) }
    ensures words { IfOk result (λ m. (w : List (Bound Sym)) → Accepts m w ↔ InChain (stands scope.now) scope.now.numbers.items (λ v. ⊥) (links_in links.now) w) }
{
    match links {
        [] => Fsa::new(alloc),
        [link] => linked(alloc, scope, &Fsa::new(alloc)?, link),
        _ => {
            let (front, back) = links.split_at(links.len() / 2);
            let first = union_operands(alloc, scope, front)?;
            let second = union_operands(alloc, scope, back)?;
            fsa_rational::union(alloc, &first, &second)
        }
    }
}

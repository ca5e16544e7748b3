ghost use Rattle.std.specs.Prelude.{◌≡◌, ◌↔◌, IfOk, IsTrue, List, [], ◌∷◌, ◌++◌, All, map};
ghost use Rattle.fsm_base.specs.declared.letters.Bound.{Bound};
ghost use Rattle.fsm_base.specs.declared.letters.Bound.TheVariants.{Edge};
ghost use Rattle.fsm_base.specs.declared.letters.Sym.{Sym};
ghost use Rattle.word_relations.specs.Words.{IsOver};
ghost use Rattle.fsa.specs.Complete as complete;
ghost use Rattle.fsa.specs.Language.{Accepts};
ghost use Rattle.lang_algebra.specs.Languages.{IsLang};
ghost use Rattle.regex_ast.specs.Terms.{concat, contexts_of, cross, directed, groups_of, ignore, links_of, mappings_of, maybe, not_one, only, rules, steps_by, term, terms_of};
ghost use Rattle.expr_kinds.specs.Built.{inserts_alone};
ghost use Rattle.expr_kinds.specs.Kinds.{ChainFits, ContextsFit, EachFits, EachFitsAsLanguage, Fits, GroupsFit, IsLanguage, MappingsFit, StepsFit, kind_of_chain, kind_of_steps};
ghost use Rattle.expr_kinds.specs.declared.form.Kind.{Kind};
ghost use Rattle.expr_meaning.specs.Meaning.{In, InChain, InContext, InIgnoring, InSteps, RelatesChain, RelatesSteps};
ghost use Rattle.expr_meaning.specs.Operators.{inner};
ghost use Rattle.network_algebra.specs.Networks.{IsFor, IsNetwork, PairsOf, UsesOnly, WordsOf, all_letters, kind_of_network};
ghost use Rattle.network_sets.specs.Split.{split, split_letters};
ghost use Rattle.network_expr.specs.Built.{AreBuiltOver, ContextsAreBuiltOver, GroupsAreBuiltOver, IsBuiltOver, IsChoice, IsMeant, IsNarrowing, LinksAreBuiltOver, MappingsAreBuiltOver, StepsAreBuiltOver};
ghost use Rattle.network_expr.specs.Cascades.{IsCascade, IsCascadeFor, PairsOfCascade, WordsOfCascade, kind_of_cascade};
ghost use Rattle.network_expr.specs.Parts.{IsGround, kinds, stands};
ghost use Rattle.network_expr.specs.Rules.{AreContexts, AreMaps, IsPart};

use crate::cascade::Cascade;
use crate::insertions::{empty_word, insertion};
use crate::langs::inner_language;
use crate::leaves::{leaf, symbols};
use crate::parts::Part;
use expr_kinds::{are_alike, is_insertion};
use fsa::Fsa;
use fsm_base::{Bound, Sym};
use lang_algebra::{Lang, one_letter};
use network_algebra::{Network, cross, inner_letters, reduced, union, word};
use network_sets::{
    Split, apply_prefixes, apply_suffixes, both, ignore, in_context, language, not_one_times,
    restrict,
};
use regex_ast::{Atom, Context, Expr, Group, Link, Mapping, Step, Way};
use replace_directed::directed;
use replace_rules::{LangContext, LangGroup, LangMap, replace};
use std::alloc::{AllocError, Global};

/// The network of an expression over an alphabet: of its kind, with its words where it is a language, and with the
/// pairs that it relates. A name relates what its part does.
#[cycle(build)]
pub fn network_of(
    alloc: Global,
    alphabet: &[Sym],
    parts: &[Part],
    expr: &Expr<Atom>,
) -> Result<Network, AllocError>
    requires ground { IsGround alphabet.now parts.now }
    requires built { IsBuiltOver parts.now alphabet.now (term expr.now) }
    requires fits { Fits (kinds parts.now) (term expr.now) }
    ensures letters { IfOk result (IsNetwork alphabet.now) }
    ensures meaning { IfOk result (IsMeant parts.now alphabet.now (term expr.now)) }
{
    match expr {
        Expr::Empty => Ok(Network::Words(word(alloc, &[])?)),
        Expr::Any => Ok(Network::Words(one_letter(alloc, &inner_letters(alloc, alphabet)?)?)),
        Expr::Edge => Ok(Network::Words(word(alloc, &[Bound::Edge])?)),
        Expr::Atom(atom) => leaf(alloc, alphabet, parts, *atom),
        Expr::Letters(letters) => Ok(Network::Words(symbols(alloc, alphabet, letters)?)),
        Expr::Group(inner) => network_of(alloc, alphabet, parts, inner),
        Expr::Maybe(inner) => perhaps(alloc, alphabet, parts, inner),
        Expr::NotOne(count, inner) => no_such_letter(alloc, alphabet, parts, *count, inner),
        Expr::Cross(upper, lower) => crossed(alloc, alphabet, parts, upper, lower),
        Expr::Suffixed(inner, suffixes) => {
            apply_suffixes(alloc, network_of(alloc, alphabet, parts, inner)?, suffixes)
        }
        Expr::Prefixed(prefixes, inner) => {
            let words = words_of(alloc, alphabet, parts, inner)?;
            Ok(Network::Words(apply_prefixes(alloc, alphabet, prefixes, words)?))
        }
        Expr::Ignore(operands) => Ok(Network::Words(ignored(alloc, alphabet, parts, operands)?)),
        Expr::Concat(operands) => reduced(
            alloc,
            &concat_operands(alloc, alphabet, parts, operands)?,
        ),
        Expr::Chain(first, links) => {
            in_chain(
                alloc,
                alphabet,
                parts,
                network_of(alloc, alphabet, parts, first)?,
                links,
            )
        }
        Expr::Only(centre, contexts) => only_in(alloc, alphabet, parts, centre, contexts),
        Expr::Steps(first, steps) => {
            in_steps(
                alloc,
                alphabet,
                parts,
                network_of(alloc, alphabet, parts, first)?,
                steps,
            )
        }
        Expr::Rules(rules) => replaced(alloc, alphabet, parts, rules.optional, &rules.groups),
        Expr::Directed(rule) => {
            directed_rule(alloc, alphabet, parts, rule.way, &rule.maps, &rule.contexts)
        }
    }
}

/// The automaton of an expression that is a language.
#[cycle(build)]
pub fn words_of(
    alloc: Global,
    alphabet: &[Sym],
    parts: &[Part],
    expr: &Expr<Atom>,
) -> Result<Fsa<Bound<Sym>>, AllocError>
    requires ground { IsGround alphabet.now parts.now }
    requires built { IsBuiltOver parts.now alphabet.now (term expr.now) }
    requires fits { Fits (kinds parts.now) (term expr.now) }
    requires language { IsLanguage (kinds parts.now) (term expr.now) }
    ensures letters { IfOk result (UsesOnly (all_letters alphabet.now)) }
    ensures words { IfOk result (λ m. (w : List (Bound Sym)) → Accepts m w ↔ In (stands parts.now) alphabet.now (term expr.now) w) }
{
    Ok(network_of(alloc, alphabet, parts, expr)?.into_words())
}

/// The network of an expression or the empty string.
#[cycle(build)]
fn perhaps(
    alloc: Global,
    alphabet: &[Sym],
    parts: &[Part],
    inner: &Expr<Atom>,
) -> Result<Network, AllocError>
    requires ground { IsGround alphabet.now parts.now }
    requires built { IsBuiltOver parts.now alphabet.now (term inner.now) }
    requires fits { Fits (kinds parts.now) (term inner.now) }
    ensures letters { IfOk result (IsNetwork alphabet.now) }
    ensures meaning { IfOk result (IsMeant parts.now alphabet.now (maybe (term inner.now))) }
{
    let empty = Network::Words(word(alloc, &[])?);
    let either = union(alloc, empty, network_of(alloc, alphabet, parts, inner)?)?;
    reduced(alloc, &either)
}

/// The network of an expression with backslashes.
#[cycle(build)]
fn no_such_letter(
    alloc: Global,
    alphabet: &[Sym],
    parts: &[Part],
    count: u32,
    inner: &Expr<Atom>,
) -> Result<Network, AllocError>
    requires ground { IsGround alphabet.now parts.now }
    requires built { IsBuiltOver parts.now alphabet.now (term inner.now) }
    requires fits { Fits (kinds parts.now) (not_one count (term inner.now)) }
    ensures letters { IfOk result (IsNetwork alphabet.now) }
    ensures meaning { IfOk result (IsMeant parts.now alphabet.now (not_one count (term inner.now))) }
{
    let words = words_of(alloc, alphabet, parts, inner)?;
    Ok(Network::Words(not_one_times(alloc, alphabet, count, words)?))
}

/// The network of two sides of a colon, which is a language only where both are the same symbol or empty.
#[cycle(build)]
fn crossed(
    alloc: Global,
    alphabet: &[Sym],
    parts: &[Part],
    upper: &Expr<Atom>,
    lower: &Expr<Atom>,
) -> Result<Network, AllocError>
    requires ground { IsGround alphabet.now parts.now }
    requires built { IsBuiltOver parts.now alphabet.now (cross (term upper.now) (term lower.now)) }
    requires fits { Fits (kinds parts.now) (cross (term upper.now) (term lower.now)) }
    ensures letters { IfOk result (IsNetwork alphabet.now) }
    ensures meaning { IfOk result (IsMeant parts.now alphabet.now (cross (term upper.now) (term lower.now))) }
{
    let above = words_of(alloc, alphabet, parts, upper)?;
    let below = words_of(alloc, alphabet, parts, lower)?;
    if are_alike(upper, lower) {
        Ok(Network::Words(both(alloc, alphabet, &above, &below)?))
    } else {
        cross(alloc, &above, &below)
    }
}

/// The automaton of a row of `/`, from left to right.
#[cycle(build)]
fn ignored(
    alloc: Global,
    alphabet: &[Sym],
    parts: &[Part],
    operands: &[Expr<Atom>],
) -> Result<Fsa<Bound<Sym>>, AllocError>
    requires ground { IsGround alphabet.now parts.now }
    requires built { AreBuiltOver parts.now alphabet.now (terms_of (map term operands.now)) }
    requires fits { EachFitsAsLanguage (kinds parts.now) (terms_of (map term operands.now)) }
    ensures letters { IfOk result (UsesOnly (all_letters alphabet.now)) }
    ensures words { IfOk result (λ m. (w : List (Bound Sym)) → Accepts m w ↔ In (stands parts.now) alphabet.now (ignore (terms_of (map term operands.now))) w) }
{
    match operands.split_first() {
        None => word(alloc, &[]),
        Some((first, others)) => {
            let words = words_of(alloc, alphabet, parts, first)?;
            in_ignoring(alloc, alphabet, parts, words, others)
        }
    }
}

/// A language with words of further ones put in, one after another.
#[cycle(build)]
fn in_ignoring(
    alloc: Global,
    alphabet: &[Sym],
    parts: &[Part],
    before: Fsa<Bound<Sym>>,
    operands: &[Expr<Atom>],
) -> Result<Fsa<Bound<Sym>>, AllocError>
    requires ground { IsGround alphabet.now parts.now }
    requires before { UsesOnly (all_letters alphabet.now) before }
    requires built { AreBuiltOver parts.now alphabet.now (terms_of (map term operands.now)) }
    requires fits { EachFitsAsLanguage (kinds parts.now) (terms_of (map term operands.now)) }
    ensures letters { IfOk result (UsesOnly (all_letters alphabet.now)) }
    ensures words { IfOk result (λ m. (w : List (Bound Sym)) → Accepts m w ↔ InIgnoring (stands parts.now) alphabet.now (Accepts before) (terms_of (map term operands.now)) w) }
{
    let mut around = before;
    'operands: for operand in operands {
        let words = words_of(alloc, alphabet, parts, operand)?;
        around = ignore(alloc, alphabet, &around, &words)?;
    }
    Ok(around)
}

/// The network of expressions side by side, not reduced. They are joined by halves, so that each is copied a few times
/// only.
#[cycle(build)]
fn concat_operands(
    alloc: Global,
    alphabet: &[Sym],
    parts: &[Part],
    operands: &[Expr<Atom>],
) -> Result<Network, AllocError>
    requires ground { IsGround alphabet.now parts.now }
    requires built { AreBuiltOver parts.now alphabet.now (terms_of (map term operands.now)) }
    requires fits { EachFits (kinds parts.now) (terms_of (map term operands.now)) }
    ensures letters { IfOk result (IsNetwork alphabet.now) }
    ensures meaning { IfOk result (IsMeant parts.now alphabet.now (concat (terms_of (map term operands.now)))) }
{
    match operands {
        [] => Ok(Network::Words(word(alloc, &[])?)),
        [operand] => network_of(alloc, alphabet, parts, operand),
        _ => {
            let (front, back) = operands.split_at(operands.len() / 2);
            let first = concat_operands(alloc, alphabet, parts, front)?;
            let second = concat_operands(alloc, alphabet, parts, back)?;
            network_algebra::concat(alloc, first, second)
        }
    }
}

/// The network of what stands before and a row of `|`, `&` and `-`, from left to right. Stretches of `|` are joined by
/// halves, and those of `&` and `-` are taken from a language that stays deterministic.
#[cycle(build)]
fn in_chain(
    alloc: Global,
    alphabet: &[Sym],
    parts: &[Part],
    before: Network,
    links: &[Link<Atom>],
) -> Result<Network, AllocError>
    requires ground { IsGround alphabet.now parts.now }
    requires before { IsNetwork alphabet.now before }
    requires built { LinksAreBuiltOver parts.now alphabet.now (links_of links.now) }
    requires fits { ChainFits (kinds parts.now) (kind_of_network before) (links_of links.now) }
    ensures letters { IfOk result (IsNetwork alphabet.now) }
    ensures meaning { IfOk result (IsFor (kind_of_chain (kinds parts.now) (kind_of_network before) (links_of links.now)) (InChain (stands parts.now) alphabet.now (WordsOf before) (links_of links.now)) (RelatesChain (stands parts.now) alphabet.now (WordsOf before) (PairsOf before) (links_of links.now))) }
{
    match links {
        [] => Ok(before),
        _ if are_choices(links) => {
            let either = union(
                alloc,
                before,
                union_operands(alloc, alphabet, parts, links)?,
            )?;
            reduced(alloc, &either)
        }
        _ if are_narrowing(links) => {
            let words = language(alloc, alphabet, &before.into_words())?;
            let kept = narrowed(alloc, alphabet, parts, words, links)?;
            Ok(Network::Words(kept.to_fsa(alloc)?))
        }
        _ => {
            let (front, back) = links.split_at(links.len() / 2);
            let first = in_chain(alloc, alphabet, parts, before, front)?;
            in_chain(alloc, alphabet, parts, first, back)
        }
    }
}

/// Whether the operator is `|`.
fn is_choice(link: &Link<Atom>) -> bool
    ensures { IsTrue result ↔ IsChoice link.now }
{
    matches!(link, Link::Or(_))
}

/// Whether each operator is `|`.
fn are_choices(links: &[Link<Atom>]) -> bool
    ensures { IsTrue result ↔ All IsChoice links.now }
{
    links.iter().all(is_choice)
}

/// Whether the operator is `&` or `-`.
fn is_narrowing(link: &Link<Atom>) -> bool
    ensures { IsTrue result ↔ IsNarrowing link.now }
{
    matches!(link, Link::And(_) | Link::Less(_))
}

/// Whether each operator is `&` or `-`.
fn are_narrowing(links: &[Link<Atom>]) -> bool
    ensures { IsTrue result ↔ All IsNarrowing links.now }
{
    links.iter().all(is_narrowing)
}

/// The network of any of the operands of a row of `|`, joined by halves and not reduced.
#[cycle(build)]
fn union_operands(
    alloc: Global,
    alphabet: &[Sym],
    parts: &[Part],
    links: &[Link<Atom>],
) -> Result<Network, AllocError>
    requires ground { IsGround alphabet.now parts.now }
    requires choices { All IsChoice links.now }
    requires built { LinksAreBuiltOver parts.now alphabet.now (links_of links.now) }
    requires fits { ChainFits (kinds parts.now) Kind.Language (links_of links.now) }
    ensures letters { IfOk result (IsNetwork alphabet.now) }
    ensures meaning { IfOk result (IsFor (kind_of_chain (kinds parts.now) Kind.Language (links_of links.now)) (InChain (stands parts.now) alphabet.now (λ w. ⊥) (links_of links.now)) (RelatesChain (stands parts.now) alphabet.now (λ w. ⊥) (λ u w. ⊥) (links_of links.now))) }
{
    match links {
        [] => Ok(Network::Words(Fsa::new(alloc)?)),
        [link] => chosen(alloc, alphabet, parts, link),
        _ => {
            let (front, back) = links.split_at(links.len() / 2);
            let first = union_operands(alloc, alphabet, parts, front)?;
            let second = union_operands(alloc, alphabet, parts, back)?;
            union(alloc, first, second)
        }
    }
}

/// The network of the operand of a `|`.
#[cycle(build)]
fn chosen(
    alloc: Global,
    alphabet: &[Sym],
    parts: &[Part],
    link: &Link<Atom>,
) -> Result<Network, AllocError>
    requires ground { IsGround alphabet.now parts.now }
    requires choice { IsChoice link.now }
    requires built { LinksAreBuiltOver parts.now alphabet.now (links_of (link.now ∷ [])) }
    requires fits { ChainFits (kinds parts.now) Kind.Language (links_of (link.now ∷ [])) }
    ensures letters { IfOk result (IsNetwork alphabet.now) }
    ensures meaning { IfOk result (IsFor (kind_of_chain (kinds parts.now) Kind.Language (links_of (link.now ∷ []))) (InChain (stands parts.now) alphabet.now (λ w. ⊥) (links_of (link.now ∷ []))) (RelatesChain (stands parts.now) alphabet.now (λ w. ⊥) (λ u w. ⊥) (links_of (link.now ∷ [])))) }
{
    match link {
        Link::Or(operand) => network_of(alloc, alphabet, parts, operand),
        Link::And(_) | Link::Less(_) => unreachable!(),
    }
}

/// What a row of `&` and `-` leaves of a language.
#[cycle(build)]
fn narrowed(
    alloc: Global,
    alphabet: &[Sym],
    parts: &[Part],
    before: Lang<Bound<Sym>>,
    links: &[Link<Atom>],
) -> Result<Lang<Bound<Sym>>, AllocError>
    requires ground { IsGround alphabet.now parts.now }
    requires letters { before.letters ≡ all_letters alphabet.now }
    requires narrowing { All IsNarrowing links.now }
    requires built { LinksAreBuiltOver parts.now alphabet.now (links_of links.now) }
    requires fits { ChainFits (kinds parts.now) Kind.Language (links_of links.now) }
    ensures { IfOk result (IsLang (all_letters alphabet.now) (InChain (stands parts.now) alphabet.now (complete.Accepts before) (links_of links.now))) }
{
    match links {
        [] => {
            let _ = before.letters();
            Ok(before)
        }
        [link] => narrowed_by(alloc, alphabet, parts, &before, link),
        _ => {
            let (front, back) = links.split_at(links.len() / 2);
            let first = narrowed(alloc, alphabet, parts, before, front)?;
            narrowed(alloc, alphabet, parts, first, back)
        }
    }
}

/// What an operand of `&` or `-` leaves of a language.
#[cycle(build)]
fn narrowed_by(
    alloc: Global,
    alphabet: &[Sym],
    parts: &[Part],
    before: &Lang<Bound<Sym>>,
    link: &Link<Atom>,
) -> Result<Lang<Bound<Sym>>, AllocError>
    requires ground { IsGround alphabet.now parts.now }
    requires letters { before.now.letters ≡ all_letters alphabet.now }
    requires narrowing { IsNarrowing link.now }
    requires built { LinksAreBuiltOver parts.now alphabet.now (links_of (link.now ∷ [])) }
    requires fits { ChainFits (kinds parts.now) Kind.Language (links_of (link.now ∷ [])) }
    ensures { IfOk result (IsLang (all_letters alphabet.now) (InChain (stands parts.now) alphabet.now (complete.Accepts before.now) (links_of (link.now ∷ [])))) }
{
    match link {
        Link::Or(_) => unreachable!(),
        Link::And(operand) => {
            let words = words_of(alloc, alphabet, parts, operand)?;
            before.both(alloc, &language(alloc, alphabet, &words)?)
        }
        Link::Less(operand) => {
            let words = words_of(alloc, alphabet, parts, operand)?;
            before.minus(alloc, &language(alloc, alphabet, &words)?)
        }
    }
}

/// The network of what stands before and a row of `.x.` and `.o.`, from left to right.
#[cycle(build)]
fn in_steps(
    alloc: Global,
    alphabet: &[Sym],
    parts: &[Part],
    before: Network,
    steps: &[Step<Atom>],
) -> Result<Network, AllocError>
    requires ground { IsGround alphabet.now parts.now }
    requires before { IsNetwork alphabet.now before }
    requires built { StepsAreBuiltOver parts.now alphabet.now (steps_by steps.now) }
    requires fits { StepsFit (kinds parts.now) (kind_of_network before) (steps_by steps.now) }
    ensures letters { IfOk result (IsNetwork alphabet.now) }
    ensures meaning { IfOk result (IsFor (kind_of_steps (kinds parts.now) (kind_of_network before) (steps_by steps.now)) (InSteps (stands parts.now) alphabet.now (WordsOf before) (steps_by steps.now)) (RelatesSteps (stands parts.now) alphabet.now (WordsOf before) (PairsOf before) (steps_by steps.now))) }
{
    let mut cascade = Cascade {
        head: before,
        tail: None,
    };
    'steps: for step in steps {
        cascade = in_step(alloc, alphabet, parts, cascade, step)?;
    }
    cascade.join(alloc, alphabet)
}

/// What stands before and one more operand of `.x.` or `.o.`.
#[cycle(build)]
fn in_step(
    alloc: Global,
    alphabet: &[Sym],
    parts: &[Part],
    before: Cascade,
    step: &Step<Atom>,
) -> Result<Cascade, AllocError>
    requires ground { IsGround alphabet.now parts.now }
    requires before { IsCascade alphabet.now before }
    requires built { StepsAreBuiltOver parts.now alphabet.now (steps_by (step.now ∷ [])) }
    requires fits { StepsFit (kinds parts.now) (kind_of_cascade before) (steps_by (step.now ∷ [])) }
    ensures letters { IfOk result (IsCascade alphabet.now) }
    ensures meaning { IfOk result (IsCascadeFor (kind_of_steps (kinds parts.now) (kind_of_cascade before) (steps_by (step.now ∷ []))) (InSteps (stands parts.now) alphabet.now (WordsOfCascade before) (steps_by (step.now ∷ []))) (RelatesSteps (stands parts.now) alphabet.now (WordsOfCascade before) (PairsOfCascade before) (steps_by (step.now ∷ [])))) }
{
    match step {
        Step::CrossWith(operand) => {
            let first = before.join(alloc, alphabet)?.into_words();
            let second = words_of(alloc, alphabet, parts, operand)?;
            Ok(Cascade {
                head: cross(alloc, &first, &second)?,
                tail: None,
            })
        }
        Step::Then(operand) => {
            let network = network_of(alloc, alphabet, parts, operand)?;
            before.then(alloc, alphabet, network)
        }
    }
}

/// The network of a restriction to contexts.
#[cycle(build)]
fn only_in(
    alloc: Global,
    alphabet: &[Sym],
    parts: &[Part],
    centre: &Expr<Atom>,
    contexts: &[Context<Atom>],
) -> Result<Network, AllocError>
    requires ground { IsGround alphabet.now parts.now }
    requires built { IsBuiltOver parts.now alphabet.now (only (term centre.now) (contexts_of contexts.now)) }
    requires fits { Fits (kinds parts.now) (only (term centre.now) (contexts_of contexts.now)) }
    ensures letters { IfOk result (IsNetwork alphabet.now) }
    ensures meaning { IfOk result (IsMeant parts.now alphabet.now (only (term centre.now) (contexts_of contexts.now))) }
{
    let words = words_of(alloc, alphabet, parts, centre)?;
    let allowed = in_contexts(alloc, alphabet, parts, contexts)?;
    Ok(Network::Words(restrict(alloc, alphabet, &words, &allowed)?))
}

/// The split words in one of the contexts, joined by halves.
#[cycle(build)]
fn in_contexts(
    alloc: Global,
    alphabet: &[Sym],
    parts: &[Part],
    contexts: &[Context<Atom>],
) -> Result<Fsa<Split>, AllocError>
    requires ground { IsGround alphabet.now parts.now }
    requires built { ContextsAreBuiltOver parts.now alphabet.now (contexts_of contexts.now) }
    requires fits { ContextsFit (kinds parts.now) (contexts_of contexts.now) }
    ensures letters { IfOk result (UsesOnly (split_letters alphabet.now)) }
    ensures words { IfOk result (λ m. (x y z : List (Bound Sym)) → IsOver (inner alphabet.now) x → IsOver (inner alphabet.now) y → IsOver (inner alphabet.now) z
        → Accepts m (split (Edge ∷ x) y (z ++ Edge ∷ [])) ↔ InContext (stands parts.now) alphabet.now (contexts_of contexts.now) x z) }
{
    match contexts {
        [] => Fsa::new(alloc),
        [context] => {
            let left = words_of(alloc, alphabet, parts, &context.left)?;
            let right = words_of(alloc, alphabet, parts, &context.right)?;
            in_context(alloc, alphabet, &left, &right)
        }
        _ => {
            let (front, back) = contexts.split_at(contexts.len() / 2);
            let first = in_contexts(alloc, alphabet, parts, front)?;
            let second = in_contexts(alloc, alphabet, parts, back)?;
            fsa_rational::union(alloc, &first, &second)
        }
    }
}

/// The network of rules of replacement.
#[cycle(build)]
fn replaced(
    alloc: Global,
    alphabet: &[Sym],
    parts: &[Part],
    optional: bool,
    groups: &[Group<Atom>],
) -> Result<Network, AllocError>
    requires ground { IsGround alphabet.now parts.now }
    requires alone { IsTrue (inserts_alone (groups_of groups.now)) }
    requires built { GroupsAreBuiltOver parts.now alphabet.now (groups_of groups.now) }
    requires fits { GroupsFit (kinds parts.now) (groups_of groups.now) }
    ensures letters { IfOk result (IsNetwork alphabet.now) }
    ensures meaning { IfOk result (IsMeant parts.now alphabet.now (rules optional (groups_of groups.now))) }
{
    let mut langs = Vec::new(alloc);
    'groups: for group in groups {
        let maps = lang_maps(alloc, alphabet, parts, &group.maps)?;
        let contexts = lang_contexts(alloc, alphabet, parts, &group.contexts)?;
        langs.push(LangGroup {
            maps,
            side: group.side,
            contexts,
        })?;
    }
    if is_insertion(groups) {
        return Ok(Network::Pairs(insertion(alloc, alphabet, optional, &langs)?));
    }
    Ok(Network::Pairs(replace(alloc, alphabet, optional, &langs)?))
}

/// The network of a directed rule of replacement.
#[cycle(build)]
fn directed_rule(
    alloc: Global,
    alphabet: &[Sym],
    parts: &[Part],
    way: Way,
    maps: &[Mapping<Atom>],
    contexts: &[Context<Atom>],
) -> Result<Network, AllocError>
    requires ground { IsGround alphabet.now parts.now }
    requires built { IsBuiltOver parts.now alphabet.now (directed way (mappings_of maps.now) (contexts_of contexts.now)) }
    requires fits { Fits (kinds parts.now) (directed way (mappings_of maps.now) (contexts_of contexts.now)) }
    ensures letters { IfOk result (IsNetwork alphabet.now) }
    ensures meaning { IfOk result (IsMeant parts.now alphabet.now (directed way (mappings_of maps.now) (contexts_of contexts.now))) }
{
    let langs = lang_maps(alloc, alphabet, parts, maps)?;
    let around = lang_contexts(alloc, alphabet, parts, contexts)?;
    Ok(Network::Pairs(directed(alloc, alphabet, way, &langs, &around)?))
}

/// The languages of mappings.
#[cycle(build)]
fn lang_maps(
    alloc: Global,
    alphabet: &[Sym],
    parts: &[Part],
    maps: &[Mapping<Atom>],
) -> Result<Vec<LangMap>, AllocError>
    requires ground { IsGround alphabet.now parts.now }
    requires built { MappingsAreBuiltOver parts.now alphabet.now (mappings_of maps.now) }
    requires fits { MappingsFit (kinds parts.now) (mappings_of maps.now) }
    ensures { IfOk result (λ langs. AreMaps (stands parts.now) alphabet.now (mappings_of maps.now) langs.items) }
{
    let mut langs = Vec::new(alloc);
    'maps: for map in maps {
        langs.push(lang_map(alloc, alphabet, parts, map)?)?;
    }
    Ok(langs)
}

/// The languages of a mapping.
#[cycle(build)]
fn lang_map(
    alloc: Global,
    alphabet: &[Sym],
    parts: &[Part],
    map: &Mapping<Atom>,
) -> Result<LangMap, AllocError>
    requires ground { IsGround alphabet.now parts.now }
    requires built { MappingsAreBuiltOver parts.now alphabet.now (mappings_of (map.now ∷ [])) }
    requires fits { MappingsFit (kinds parts.now) (mappings_of (map.now ∷ [])) }
    ensures { IfOk result (λ lang. AreMaps (stands parts.now) alphabet.now (mappings_of (map.now ∷ [])) (lang ∷ [])) }
{
    match map {
        Mapping::Plain { centre, result } => Ok(LangMap {
            centre: part_language(alloc, alphabet, parts, centre)?,
            result: part_language(alloc, alphabet, parts, result)?,
            after: None,
        }),
        Mapping::Markup {
            centre,
            before,
            after,
        } => Ok(LangMap {
            centre: part_language(alloc, alphabet, parts, centre)?,
            result: part_language(alloc, alphabet, parts, before)?,
            after: Some(part_language(alloc, alphabet, parts, after)?),
        }),
        Mapping::Insert { result } => Ok(LangMap {
            centre: empty_word(alloc, alphabet)?,
            result: part_language(alloc, alphabet, parts, result)?,
            after: None,
        }),
    }
}

/// The language of a part of a mapping, which is without the edge.
#[cycle(build)]
fn part_language(
    alloc: Global,
    alphabet: &[Sym],
    parts: &[Part],
    expr: &Expr<Atom>,
) -> Result<Lang<Sym>, AllocError>
    requires ground { IsGround alphabet.now parts.now }
    requires built { IsBuiltOver parts.now alphabet.now (term expr.now) }
    requires fits { Fits (kinds parts.now) (term expr.now) }
    requires language { IsLanguage (kinds parts.now) (term expr.now) }
    ensures { IfOk result (IsPart (stands parts.now) alphabet.now (term expr.now)) }
{
    inner_language(alloc, alphabet, &words_of(alloc, alphabet, parts, expr)?)
}

/// The languages of contexts of rules.
#[cycle(build)]
fn lang_contexts(
    alloc: Global,
    alphabet: &[Sym],
    parts: &[Part],
    contexts: &[Context<Atom>],
) -> Result<Vec<LangContext>, AllocError>
    requires ground { IsGround alphabet.now parts.now }
    requires built { ContextsAreBuiltOver parts.now alphabet.now (contexts_of contexts.now) }
    requires fits { ContextsFit (kinds parts.now) (contexts_of contexts.now) }
    ensures { IfOk result (λ langs. AreContexts (stands parts.now) alphabet.now (contexts_of contexts.now) langs.items) }
{
    let mut langs = Vec::new(alloc);
    'contexts: for context in contexts {
        let left = words_of(alloc, alphabet, parts, &context.left)?;
        let right = words_of(alloc, alphabet, parts, &context.right)?;
        langs.push(LangContext {
            left: language(alloc, alphabet, &left)?,
            right: language(alloc, alphabet, &right)?,
        })?;
    }
    Ok(langs)
}

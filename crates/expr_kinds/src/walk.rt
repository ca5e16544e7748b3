ghost use Rattle.std.specs.Prelude.{◌≡◌, ◌↔◌, ◌+◌, ◌∷◌, [], IsTrue, cond, is_some, map, min, slice_get};
ghost use Rattle.std.specs.List.{list_all};
ghost use Rattle.regex_ast.specs.Terms.{term, terms_of, links_of, contexts_of, steps_by, mappings_of, groups_of};
ghost use Rattle.expr_kinds.specs.Atoms.{is_known_at, is_symbol, kind_at, kinds_at, leaves_at, weight_at, weights_at};
ghost use Rattle.expr_kinds.specs.Built.{IsBuiltBy};
ghost use Rattle.expr_kinds.specs.Forms.{as_language, beside, built_if, form_in, form_in_contexts, form_in_each, form_in_groups, form_in_links, form_in_mappings, form_in_steps, heavier, nothing, of_leaf, with_each, with_kind};
ghost use Rattle.expr_kinds.specs.Kinds.{Fits, kind_of};
ghost use Rattle.expr_kinds.specs.Weights.{most_weight, weight_of};

use crate::form::{Form, Kind};
use crate::half::are_alike;
use crate::insertions::{holds_insertion, inserts_alone};
use regex_ast::{Atom, Context, Expr, Group, Link, Mapping, Step, Suffix};

/// What an expression is by its form, in time linear in its size. A name has the kind and the weight of the form at its
/// place; where there is none it's a language of weight 1 of which nothing is built.
pub fn form_of(names: &[Form], expr: &Expr<Atom>) -> Form
    ensures kind { result.kind ≡ kind_of (leaves_at names.now) (term expr.now) }
    ensures fits { IsTrue result.fits ↔ Fits (leaves_at names.now) (term expr.now) }
    ensures weight { result.weight ≡ min (weight_of (weights_at names.now) (term expr.now)) (most_weight + 1) }
    ensures built { IsTrue result.built ↔ IsBuiltBy (is_known_at names.now) is_symbol (term expr.now) }
{
    in_expression(names, expr)
}

/// What a leaf is.
#[tactic(auto, unfolding(crate::specs::Atoms::is_known_at, crate::specs::Atoms::kinds_at, crate::specs::Atoms::weights_at))]
fn of_atom(names: &[Form], atom: Atom) -> Form
    ensures { result ≡ built_if (of_leaf (kinds_at names.now atom) (weights_at names.now atom)) (is_known_at names.now atom) }
{
    match atom {
        Atom::Sym(_) => Form::leaf(1),
        Atom::Name(place) => of_name(names, place),
    }
}

/// What a name is, by its place.
fn of_name(names: &[Form], place: u32) -> Form
    ensures { result ≡ built_if (of_leaf (kind_at names.now place) (weight_at names.now place)) (is_some (slice_get names.now place)) }
{
    match names.get(place as usize) {
        Some(form) => Form::leaf(form.weight).with_kind(form.kind),
        None => Form::leaf(1).built_if(false),
    }
}

/// Whether a leaf is a symbol and no name.
fn is_symbol(atom: &Atom) -> bool
    ensures { result ≡ is_symbol atom.now }
{
    matches!(atom, Atom::Sym(_))
}

/// Whether all of these are.
fn are_symbols(atoms: &[Atom]) -> bool
    ensures { result ≡ list_all is_symbol atoms.now }
{
    atoms.iter().all(|atom| is_symbol(atom))
}

/// What suffixes make of a form, from left to right.
fn with_suffixes(form: Form, suffixes: &[Suffix]) -> Form
    ensures { result ≡ with_each form suffixes.now }
{
    let mut form = form;
    'suffixes: for suffix in suffixes {
        form = form.behind(*suffix);
    }
    form
}

/// The form of a pair of sides.
fn crossed(upper: Form, lower: Form, alike: bool) -> Form
    ensures { result ≡ with_kind (heavier (as_language (beside upper lower)) 1) (cond alike Kind.Language Kind.Relation) }
{
    let kind = if alike {
        Kind::Language
    } else {
        Kind::Relation
    };
    upper.beside(lower).as_language().heavier(1).with_kind(kind)
}

/// The form of an expression.
#[cycle(walk)]
fn in_expression(names: &[Form], expr: &Expr<Atom>) -> Form
    ensures { result ≡ form_in (leaves_at names.now) (weights_at names.now) (is_known_at names.now) is_symbol (term expr.now) }
{
    match expr {
        Expr::Empty => Form::leaf(1),
        Expr::Any => Form::leaf(1),
        Expr::Edge => Form::leaf(1),
        Expr::Atom(atom) => of_atom(names, *atom),
        Expr::Letters(letters) => Form::leaf(letters.len()).built_if(are_symbols(letters)),
        Expr::Group(inner) => in_expression(names, inner),
        Expr::Maybe(inner) => in_expression(names, inner).heavier(1),
        Expr::NotOne(count, inner) => in_expression(names, inner)
            .as_language()
            .heavier(*count as usize),
        Expr::Cross(upper, lower) => crossed(
            in_expression(names, upper),
            in_expression(names, lower),
            are_alike(upper, lower),
        ),
        Expr::Suffixed(inner, suffixes) => with_suffixes(in_expression(names, inner), suffixes),
        Expr::Prefixed(prefixes, inner) => {
            in_expression(names, inner)
                .as_language()
                .heavier(prefixes.len())
        }
        Expr::Ignore(operands) => in_each(names, operands)
            .as_language()
            .heavier(operands.len().saturating_sub(1)),
        Expr::Concat(operands) => in_each(names, operands).heavier(
            operands.len().saturating_sub(1),
        ),
        Expr::Chain(first, links) => in_links(names, in_expression(names, first), links),
        Expr::Only(centre, contexts) => in_contexts(names, in_expression(names, centre), contexts)
            .as_language()
            .heavier(1),
        Expr::Rules(rules) => in_groups(names, &rules.groups)
            .as_language()
            .heavier(1)
            .with_kind(Kind::Relation)
            .built_if(inserts_alone(&rules.groups)),
        Expr::Directed(rule) => in_contexts(
            names,
            in_mappings(names, Form::leaf(0), &rule.maps),
            &rule.contexts,
        )
        .as_language()
        .heavier(1)
        .with_kind(Kind::Relation)
        .built_if(!holds_insertion(&rule.maps)),
        Expr::Steps(first, steps) => in_steps(names, in_expression(names, first), steps),
    }
}

/// The form of expressions together.
#[cycle(walk)]
fn in_each(names: &[Form], operands: &[Expr<Atom>]) -> Form
    ensures { result ≡ form_in_each (leaves_at names.now) (weights_at names.now) (is_known_at names.now) is_symbol nothing (terms_of (map term operands.now)) }
{
    let mut form = Form::leaf(0);
    'operands: for operand in operands {
        form = form.beside(in_expression(names, operand));
    }
    form
}

/// The form of a row of `|`, `&` and `-`, by the form of what stands before.
#[cycle(walk)]
fn in_links(names: &[Form], before: Form, links: &[Link<Atom>]) -> Form
    ensures { result ≡ form_in_links (leaves_at names.now) (weights_at names.now) (is_known_at names.now) is_symbol before (links_of links.now) }
{
    let mut form = before;
    'links: for link in links {
        form = in_link(names, form, link);
    }
    form
}

/// The form of what stands before with one operand more.
#[cycle(walk)]
fn in_link(names: &[Form], before: Form, link: &Link<Atom>) -> Form
    ensures { result ≡ form_in_links (leaves_at names.now) (weights_at names.now) (is_known_at names.now) is_symbol before (links_of (link.now ∷ [])) }
{
    match link {
        Link::Or(operand) => before.beside(in_expression(names, operand)).heavier(1),
        Link::And(operand) | Link::Less(operand) => before
            .beside(in_expression(names, operand))
            .as_language()
            .heavier(1),
    }
}

/// The form of a row of `.x.` and `.o.`, by the form of what stands before.
#[cycle(walk)]
fn in_steps(names: &[Form], before: Form, steps: &[Step<Atom>]) -> Form
    ensures { result ≡ form_in_steps (leaves_at names.now) (weights_at names.now) (is_known_at names.now) is_symbol before (steps_by steps.now) }
{
    let mut form = before;
    'steps: for step in steps {
        form = in_step(names, form, step);
    }
    form
}

/// The form of what stands before with one operand more.
#[cycle(walk)]
fn in_step(names: &[Form], before: Form, step: &Step<Atom>) -> Form
    ensures { result ≡ form_in_steps (leaves_at names.now) (weights_at names.now) (is_known_at names.now) is_symbol before (steps_by (step.now ∷ [])) }
{
    match step {
        Step::CrossWith(operand) => before
            .beside(in_expression(names, operand))
            .as_language()
            .heavier(1)
            .with_kind(Kind::Relation),
        Step::Then(operand) => before.beside(in_expression(names, operand)).heavier(1),
    }
}

/// The form of what stands before and of contexts together.
#[cycle(walk)]
fn in_contexts(names: &[Form], before: Form, contexts: &[Context<Atom>]) -> Form
    ensures { result ≡ form_in_contexts (leaves_at names.now) (weights_at names.now) (is_known_at names.now) is_symbol before (contexts_of contexts.now) }
{
    let mut form = before;
    'contexts: for context in contexts {
        let parts = in_expression(names, &context.left).beside(in_expression(
            names,
            &context.right,
        ));
        form = form.beside(parts);
    }
    form
}

/// The form of the groups of a set of rules together.
#[cycle(walk)]
fn in_groups(names: &[Form], groups: &[Group<Atom>]) -> Form
    ensures { result ≡ form_in_groups (leaves_at names.now) (weights_at names.now) (is_known_at names.now) is_symbol nothing (groups_of groups.now) }
{
    let mut form = Form::leaf(0);
    'groups: for group in groups {
        form = in_contexts(
            names,
            in_mappings(names, form, &group.maps),
            &group.contexts,
        );
    }
    form
}

/// The form of what stands before and of mappings together.
#[cycle(walk)]
fn in_mappings(names: &[Form], before: Form, mappings: &[Mapping<Atom>]) -> Form
    ensures { result ≡ form_in_mappings (leaves_at names.now) (weights_at names.now) (is_known_at names.now) is_symbol before (mappings_of mappings.now) }
{
    let mut form = before;
    'mappings: for mapping in mappings {
        form = in_mapping(names, form, mapping);
    }
    form
}

/// The form of what stands before and of a mapping together.
#[cycle(walk)]
fn in_mapping(names: &[Form], form: Form, mapping: &Mapping<Atom>) -> Form
    ensures { result ≡ form_in_mappings (leaves_at names.now) (weights_at names.now) (is_known_at names.now) is_symbol form (mappings_of (mapping.now ∷ [])) }
{
    match mapping {
        Mapping::Plain { centre, result: by } => {
            form.beside(in_expression(names, centre).beside(in_expression(names, by)))
        }
        Mapping::Markup {
            centre,
            before,
            after,
        } => form.beside(in_expression(names, centre).beside(in_expression(names, before).beside(
            in_expression(names, after),
        ))),
        Mapping::Insert { result: by } => { form.beside(in_expression(names, by)) }
    }
}

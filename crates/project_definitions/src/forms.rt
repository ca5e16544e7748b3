ghost use Rattle.std.specs.Prelude.{◌≡◌, ◌↔◌, List, ℕ, IfOk, IsTrue, length};
ghost use Rattle.expr_kinds.specs.Atoms.{is_known_at, is_symbol, leaves_at, weights_at};
ghost use Rattle.expr_kinds.specs.Forms.{capped};
ghost use Rattle.grammar_weights.specs.Weights.{is_same_symbol};
ghost use Rattle.name_order.specs.Orders.{HasNoCycle, IsOrder};
ghost use Rattle.project_meaning.specs.Projects.{names_of};
ghost use Rattle.project_sources.specs.Sources.{Said, project_in};
ghost use Rattle.project_sources.specs.Built.{BodyIsBuiltBy};
ghost use Rattle.project_definitions.specs.Bodies.{BodyFitsBy, kind_of_body, weight_of_body};
ghost use Rattle.project_definitions.specs.Forms.{AreDefined, AreForms};
ghost use Rattle.project_definitions.specs.Plain.{body_of};
ghost use Rattle.project_definitions.specs.Referring.{references_of};

use crate::definition::{Body, Definition};
use crate::entries::form_of_lexicons;
use crate::grammars::form_of_grammar;
use expr_kinds::{Form, Kind, form_of};
use regex_ast::Atom;
use std::alloc::{AllocError, Global};

/// What a definition is before it is looked at.
const UNTOLD: Form = Form {
    kind: Kind::Language,
    fits: true,
    weight: 1,
    built: false,
};

/// What a definition is by what its name stands for, where names have these forms, in time linear in its size.
pub fn form_of_body(alloc: Global, names: &[Form], body: &Body<Atom>) -> Result<Form, AllocError>
    ensures kind { IfOk result (λ form. form.kind ≡ kind_of_body (leaves_at names.now) (body_of body.now)) }
    ensures fits { IfOk result (λ form. IsTrue form.fits ↔ BodyFitsBy (leaves_at names.now) (body_of body.now)) }
    ensures weight { IfOk result (λ form. form.weight ≡ capped (weight_of_body (weights_at names.now) is_same_symbol (body_of body.now))) }
    ensures built { IfOk result (λ form. IsTrue form.built ↔ BodyIsBuiltBy (is_known_at names.now) is_symbol (body_of body.now)) }
{
    match body {
        Body::Xfst(expr) => Ok(form_of(names, expr)),
        Body::Lexc(lexicons) => Ok(form_of_lexicons(names, lexicons).with_kind(Kind::Relation)),
        Body::Twolc(grammar) => form_of_grammar(alloc, grammar),
    }
}

/// The forms of definitions, each name in them having the form of its own, by an order in which each definition stands
/// behind those that it refers to.
pub fn forms_of(
    alloc: Global,
    definitions: &[Definition],
    order: &[usize],
) -> Result<Vec<Form>, AllocError>
    requires order { IsOrder (references_of definitions.now) order.now }
    requires acyclic { HasNoCycle (references_of definitions.now) }
    ensures count { IfOk result (λ forms. length forms.items ≡ length definitions.now) }
    ensures forms { IfOk result (λ forms. (said : Said) (table : List (List ℕ)) → AreDefined said table definitions.now → AreForms (names_of said.written) (project_in said) forms.items) }
{
    let mut forms = vec![in alloc; UNTOLD; definitions.len()]?;
    'places: for place in order {
        let form = form_of_body(alloc, &forms, &definitions[*place].body)?;
        forms[*place] = form;
    }
    Ok(forms)
}

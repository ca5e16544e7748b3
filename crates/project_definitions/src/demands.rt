ghost use Rattle.std.specs.Prelude.{◌↔◌, All, IfOk, IsTrue, MatchOption};
ghost use Rattle.project_sources.specs.Faults.{fault};
ghost use Rattle.project_definitions.specs.Demands.{DemandFault, DoesMeet, FormMeets, Meets, why_not};
ghost use Rattle.project_definitions.specs.Plain.{body_of};

use crate::definition::{Body, Definition};
use crate::forms::form_of_body;
use expr_kinds::{Form, MOST_WEIGHT};
use regex_ast::Atom;
use std::alloc::{AllocError, Global};

/// What is asked of each definition.
#[derive(Clone, Copy, Debug, PartialEq, Eq)]
pub enum Demand {
    /// Each operand that must be a language is one.
    Fits,
    /// It weighs 4,000,000 at most.
    Light,
}

/// Whether a definition of this form meets it.
#[tactic(auto, unfolding(expr_kinds::specs::Weights::most_weight))]
fn does_meet(form: Form, demand: Demand) -> bool
    ensures { IsTrue result ↔ FormMeets demand form }
{
    match demand {
        Demand::Fits => form.fits,
        Demand::Light => form.weight <= MOST_WEIGHT,
    }
}

/// Whether a definition meets it, where names have these forms.
fn meets(
    alloc: Global,
    forms: &[Form],
    body: &Body<Atom>,
    demand: Demand,
) -> Result<bool, AllocError>
    ensures { IfOk result (λ does. IsTrue does ↔ Meets forms.now demand (body_of body.now)) }
{
    let form = form_of_body(alloc, forms, body)?;
    Ok(does_meet(form, demand))
}

/// The first definition that doesn't meet it where names have these forms, or `None` where all do.
pub fn first_failing<'a>(
    alloc: Global,
    definitions: &'a [Definition],
    forms: &[Form],
    demand: Demand,
) -> Result<Option<&'a Definition>, AllocError>
    ensures { IfOk result (λ found. MatchOption found (All (DoesMeet forms.now demand) definitions.now) (λ d. DemandFault definitions.now forms.now demand (fault d.now.file d.now.line (why_not demand)))) }
{
    'definitions: for definition in definitions {
        let does = meets(alloc, forms, &definition.body, demand)?;
        if !does {
            return Ok(Some(definition));
        }
    }
    Ok(None)
}

ghost use Rattle.std.specs.Prelude.{◌≡◌, ◌++◌, IfOk, OnOk, map};
ghost use Rattle.std.specs.List.{flat_map};
ghost use Rattle.name_resolution.specs.Symbols.{terms_behind};
ghost use Rattle.name_resolution.specs.Plain.{form_of, lexicon_of};
ghost use Rattle.project_meaning.specs.Leaves.{expressions_in, expressions_of};
ghost use Rattle.project_meaning.specs.Trees.{lexc};

use regex_ast::{Entry, Expr, Form, Lexicon};
use std::alloc::{AllocError, Global};

/// Adds the expression of a form, if it has one.
fn add_expression<'a, A>(form: &'a Form<A>, found: &mut Vec<&'a Expr<A>>) -> Result<(), AllocError>
    ensures { OnOk result (terms_behind found.new.items ≡ terms_behind found.old.items ++ expressions_in (form_of form.now)) }
{
    match form {
        Form::Sides { .. } => Ok(()),
        Form::Pairs(expr) => {
            found.push(expr)?;
            Ok(())
        }
    }
}

/// Adds the expressions of entries.
fn add_expressions<'a, A>(
    entries: &'a [Entry<A>],
    found: &mut Vec<&'a Expr<A>>,
) -> Result<(), AllocError>
    ensures { OnOk result (terms_behind found.new.items ≡ terms_behind found.old.items ++ flat_map expressions_in (map (λ e. form_of e.form) entries.now)) }
{
    'entries: for entry in entries {
        add_expression(&entry.form, found)?;
    }
    Ok(())
}

/// The expressions of lexicons, in the order of their places.
pub fn expressions<A>(alloc: Global, lexicons: &[Lexicon<A>]) -> Result<Vec<&Expr<A>>, AllocError>
    ensures { IfOk result (λ found. terms_behind found.items ≡ expressions_of (lexc (map lexicon_of lexicons.now))) }
{
    let mut found = Vec::new(alloc);
    'lexicons: for lexicon in lexicons {
        add_expressions(&lexicon.entries, &mut found)?;
    }
    Ok(found)
}

ghost use Rattle.std.specs.Prelude.{◌≡◌, IfOk};
ghost use Rattle.project_meaning.specs.Leaves.{expressions_of};
ghost use Rattle.network_centres.specs.Centres.{terms_seen};
ghost use Rattle.project_definitions.specs.Plain.{body_of};

use name_resolution::expressions;
use project_definitions::Body;
use regex_ast::{Atom, Expr};
use std::alloc::{AllocError, Global};

/// The expressions in what a name stands for, in the order of their places. A grammar has expressions over pairs, and none of these.
pub fn body_expressions(alloc: Global, body: &Body<Atom>) -> Result<Vec<&Expr<Atom>>, AllocError>
    ensures { IfOk result (λ found. terms_seen found.items ≡ expressions_of (body_of body.now)) }
{
    match body {
        Body::Xfst(expr) => {
            let mut found = Vec::new(alloc);
            found.push(expr)?;
            Ok(found)
        }
        Body::Lexc(lexicons) => expressions(alloc, lexicons),
        Body::Twolc(_) => Ok(Vec::new(alloc)),
    }
}

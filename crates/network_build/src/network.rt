ghost use Rattle.std.specs.Prelude.{◌≡◌, ◌↔◌, All, IfErr, IfOk, IfSome, IsTrue, MatchOption, OnOk};
ghost use Rattle.std.specs.List.{list_any};
ghost use Rattle.fsm_base.specs.Alphabet.{symbols_of};
ghost use Rattle.expr_kinds.specs.Atoms.{is_symbol_of};
ghost use Rattle.expr_kinds.specs.Built.{IsBuiltBy};
ghost use Rattle.expr_kinds.specs.Kinds.{Fits};
ghost use Rattle.expr_leaves.specs.Alphabet.{uses_alphabet};
ghost use Rattle.network_centres.specs.Centres.{terms_seen};
ghost use Rattle.network_expr.specs.Parts.{IsGround, is_leaf_of, kinds};
ghost use Rattle.project_definitions.specs.Bodies.{BodyFitsBy, IsFormed};
ghost use Rattle.project_definitions.specs.Plain.{body_of};
ghost use Rattle.project_sources.specs.Built.{BodyIsBuiltBy};
ghost use Rattle.network_build.specs.Made.{OneHasEmptyCentre};
ghost use Rattle.network_build.specs.Networks.{BodyHasEmptyCentre, IsNetworkOf, IsWhyNotBuilt};

use crate::body::network_over;
use crate::compiled::BuildError;
use crate::listing::body_expressions;
use expr_leaves::uses_alphabet;
use fsm_base::{Alphabet, Sym};
use network_algebra::Network;
use network_centres::has_empty_centre;
use network_expr::Part;
use project_definitions::{Body, Definition};
use regex_ast::{Atom, Expr};
use std::alloc::{AllocError, Global};

/// Whether a centre in one of these expressions has the empty word.
fn one_has_empty_centre(
    alloc: Global,
    alphabet: &[Sym],
    parts: &[Part],
    expressions: &[&Expr<Atom>],
) -> Result<bool, AllocError>
    requires ground { IsGround alphabet.now parts.now }
    requires built { All (IsBuiltBy (is_leaf_of parts.now alphabet.now) (is_symbol_of alphabet.now)) (terms_seen expressions.now) }
    requires fits { All (λ e. Fits (kinds parts.now) e) (terms_seen expressions.now) }
    ensures { IfOk result (λ empty. IsTrue empty ↔ OneHasEmptyCentre parts.now alphabet.now (terms_seen expressions.now)) }
{
    'expressions: for expr in expressions {
        if has_empty_centre(alloc, alphabet, parts, expr)? {
            return Ok(true);
        }
    }
    Ok(false)
}

/// Whether one of these expressions uses the alphabet.
fn one_uses_alphabet(expressions: &[&Expr<Atom>]) -> bool
    ensures { result ≡ list_any (λ e. uses_alphabet e) (terms_seen expressions.now) }
{
    'expressions: for expr in expressions {
        if uses_alphabet(expr) {
            return true;
        }
    }
    false
}

/// The network of what a name stands for, over an alphabet, or none where one of its own centres has the empty word.
fn network_if_filled(
    alloc: Global,
    alphabet: &[Sym],
    parts: &[Part],
    body: &Body<Atom>,
) -> Result<Option<Network>, AllocError>
    requires ground { IsGround alphabet.now parts.now }
    requires built { BodyIsBuiltBy (is_leaf_of parts.now alphabet.now) (is_symbol_of alphabet.now) (body_of body.now) }
    requires fits { BodyFitsBy (kinds parts.now) (body_of body.now) }
    requires formed { IsFormed (body_of body.now) }
    ensures network { IfOk result (λ made. IfSome made (IsNetworkOf parts.now alphabet.now (body_of body.now))) }
    ensures filled { IfOk result (λ made. MatchOption made (BodyHasEmptyCentre parts.now alphabet.now (body_of body.now)) (λ n. ¬ BodyHasEmptyCentre parts.now alphabet.now (body_of body.now))) }
{
    let expressions = body_expressions(alloc, body)?;
    if one_has_empty_centre(alloc, alphabet, parts, &expressions)? {
        return Ok(None);
    }
    let uses = one_uses_alphabet(&expressions);
    Ok(Some(network_over(alloc, alphabet, parts, body, uses)?))
}

/// The network of a definition of a plan, over the symbols of the plan: it relates just the words that the definition
/// relates, where each name relates what its part does. There is none where one of the definition's own centres has the
/// empty word.
pub fn build(
    alloc: Global,
    definition: &Definition,
    alphabet: &Alphabet,
    parts: &[Part],
) -> Result<Network, BuildError>
    requires ground { IsGround (symbols_of alphabet.now) parts.now }
    requires built { BodyIsBuiltBy (is_leaf_of parts.now (symbols_of alphabet.now)) (is_symbol_of (symbols_of alphabet.now)) (body_of definition.now.body) }
    requires fits { BodyFitsBy (kinds parts.now) (body_of definition.now.body) }
    requires formed { IsFormed (body_of definition.now.body) }
    ensures network { IfOk result (IsNetworkOf parts.now (symbols_of alphabet.now) (body_of definition.now.body)) }
    ensures filled { OnOk result (¬ BodyHasEmptyCentre parts.now (symbols_of alphabet.now) (body_of definition.now.body)) }
    ensures error { IfErr result (IsWhyNotBuilt parts.now (symbols_of alphabet.now) definition.now) }
{
    match network_if_filled(alloc, alphabet.symbols(), parts, &definition.body)? {
        Some(network) => Ok(network),
        None => Err(BuildError::EmptyCentre {
            line: definition.line,
        }),
    }
}

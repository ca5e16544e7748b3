ghost use Rattle.std.specs.Prelude.{◌↔◌, [], IfOk, IsTrue};
ghost use Rattle.std.specs.Bool.{OnFalse};
ghost use Rattle.regex_ast.specs.Terms.{term};
ghost use Rattle.expr_kinds.specs.Atoms.{is_symbol_of};
ghost use Rattle.expr_kinds.specs.Built.{IsBuiltWith, AnyCentre};
ghost use Rattle.expr_kinds.specs.Kinds.{Fits, IsLanguage};
ghost use Rattle.expr_meaning.specs.Meaning.{In};
ghost use Rattle.network_expr.specs.Built.{IsBuiltOver};
ghost use Rattle.network_expr.specs.Parts.{IsGround, is_leaf_of, kinds, stands};
ghost use Rattle.network_centres.specs.Centres.{HasEmptyCentre};

use crate::listing::centres;
use fsm_base::Sym;
use network_expr::{Part, language_of};
use regex_ast::{Atom, Expr};
use std::alloc::{AllocError, Global};

/// Whether a language has the empty word.
fn has_empty_word(
    alloc: Global,
    alphabet: &[Sym],
    parts: &[Part],
    expr: &Expr<Atom>,
) -> Result<bool, AllocError>
    requires ground { IsGround alphabet.now parts.now }
    requires built { IsBuiltOver parts.now alphabet.now (term expr.now) }
    requires fits { Fits (kinds parts.now) (term expr.now) }
    requires language { IsLanguage (kinds parts.now) (term expr.now) }
    ensures { IfOk result (λ empty. IsTrue empty ↔ In (stands parts.now) alphabet.now (term expr.now) []) }
{
    Ok(language_of(alloc, alphabet, parts, expr)?.has_empty())
}

/// Whether one of the centres of the rules of replacement in an expression has the empty word. Where none has, the expression's
/// network can be built. No network is built where there are no rules.
pub fn has_empty_centre(
    alloc: Global,
    alphabet: &[Sym],
    parts: &[Part],
    expr: &Expr<Atom>,
) -> Result<bool, AllocError>
    requires ground { IsGround alphabet.now parts.now }
    requires built { IsBuiltWith (is_leaf_of parts.now alphabet.now) (is_symbol_of alphabet.now) AnyCentre (term expr.now) }
    requires fits { Fits (kinds parts.now) (term expr.now) }
    ensures empty { IfOk result (λ empty. IsTrue empty ↔ HasEmptyCentre parts.now alphabet.now (term expr.now)) }
    ensures filled { IfOk result (λ empty. OnFalse empty (IsBuiltOver parts.now alphabet.now (term expr.now))) }
{
    let mut unseen = centres(alloc, expr)?;
    // the last ones first, so that those inside a centre are known to be filled when its language is built
    'centres: while let Some(centre) = unseen.pop() {
        if has_empty_word(alloc, alphabet, parts, centre)? {
            return Ok(true);
        }
    }
    Ok(false)
}

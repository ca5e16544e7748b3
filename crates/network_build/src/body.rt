ghost use Rattle.std.specs.Prelude.{◌≡◌, IfOk, false, true};
ghost use Rattle.expr_kinds.specs.Atoms.{is_symbol_of};
ghost use Rattle.network_expr.specs.Parts.{IsGround, is_leaf_of, kinds};
ghost use Rattle.project_definitions.specs.Bodies.{BodyFitsBy, IsFormed};
ghost use Rattle.project_definitions.specs.Plain.{body_of};
ghost use Rattle.project_sources.specs.Built.{BodyIsBuiltBy};
ghost use Rattle.network_build.specs.Made.{IsMade, IsReady};
ghost use Rattle.network_build.specs.Networks.{BodyHasEmptyCentre, IsNetworkOf, body_uses_alphabet};

use crate::symbols::body_symbols;
use fsm_base::Sym;
use network_algebra::Network;
use network_expr::{Part, network_of};
use network_grammars::network_of_grammar;
use network_lexicons::network_of_lexicons;
use project_definitions::Body;
use regex_ast::Atom;
use std::alloc::{AllocError, Global};

/// The network of what a name stands for over an alphabet, whose names have these parts. Its letters are the alphabet's symbols only
/// where an expression uses the alphabet, so that a large alphabet makes no other network larger.
pub fn network_over(
    alloc: Global,
    alphabet: &[Sym],
    parts: &[Part],
    body: &Body<Atom>,
    uses_alphabet: bool,
) -> Result<Network, AllocError>
    requires ground { IsGround alphabet.now parts.now }
    requires built { BodyIsBuiltBy (is_leaf_of parts.now alphabet.now) (is_symbol_of alphabet.now) (body_of body.now) }
    requires fits { BodyFitsBy (kinds parts.now) (body_of body.now) }
    requires formed { IsFormed (body_of body.now) }
    requires filled { ¬ BodyHasEmptyCentre parts.now alphabet.now (body_of body.now) }
    requires uses { uses_alphabet ≡ body_uses_alphabet (body_of body.now) }
    ensures { IfOk result (IsNetworkOf parts.now alphabet.now (body_of body.now)) }
{
    if uses_alphabet {
        over_alphabet(alloc, alphabet, parts, body)
    } else {
        over_own_symbols(alloc, alphabet, parts, body)
    }
}

/// The network of what a name stands for, where an expression in it uses the alphabet.
fn over_alphabet(
    alloc: Global,
    alphabet: &[Sym],
    parts: &[Part],
    body: &Body<Atom>,
) -> Result<Network, AllocError>
    requires ground { IsGround alphabet.now parts.now }
    requires built { BodyIsBuiltBy (is_leaf_of parts.now alphabet.now) (is_symbol_of alphabet.now) (body_of body.now) }
    requires fits { BodyFitsBy (kinds parts.now) (body_of body.now) }
    requires formed { IsFormed (body_of body.now) }
    requires filled { ¬ BodyHasEmptyCentre parts.now alphabet.now (body_of body.now) }
    requires uses { body_uses_alphabet (body_of body.now) ≡ true }
    ensures { IfOk result (IsNetworkOf parts.now alphabet.now (body_of body.now)) }
{
    network_of_ready(alloc, alphabet, parts, body)
}

/// The network of what a name stands for, where no expression in it uses the alphabet: over the symbols that stand in it and in its
/// parts.
fn over_own_symbols(
    alloc: Global,
    alphabet: &[Sym],
    parts: &[Part],
    body: &Body<Atom>,
) -> Result<Network, AllocError>
    requires ground { IsGround alphabet.now parts.now }
    requires built { BodyIsBuiltBy (is_leaf_of parts.now alphabet.now) (is_symbol_of alphabet.now) (body_of body.now) }
    requires fits { BodyFitsBy (kinds parts.now) (body_of body.now) }
    requires formed { IsFormed (body_of body.now) }
    requires free { body_uses_alphabet (body_of body.now) ≡ false }
    ensures { IfOk result (IsNetworkOf parts.now alphabet.now (body_of body.now)) }
{
    let own = body_symbols(alloc, body, parts)?;
    network_of_ready(alloc, &own, parts, body)
}

/// The network of what a name stands for over just these symbols.
fn network_of_ready(
    alloc: Global,
    symbols: &[Sym],
    parts: &[Part],
    body: &Body<Atom>,
) -> Result<Network, AllocError>
    requires ground { IsGround symbols.now parts.now }
    requires ready { IsReady parts.now symbols.now (body_of body.now) }
    ensures { IfOk result (IsMade parts.now symbols.now (body_of body.now)) }
{
    match body {
        Body::Xfst(expr) => network_of(alloc, symbols, parts, expr),
        Body::Lexc(lexicons) => network_of_lexicons(alloc, symbols, parts, lexicons),
        Body::Twolc(grammar) => network_of_grammar(alloc, grammar),
    }
}

ghost use Rattle.std.specs.Prelude.{◌≡◌, ◌↔◌, IfOk, IsTrue, List, Some};
ghost use Rattle.std.specs.List.{list_all};
ghost use Rattle.fsm_base.specs.declared.letters.Bound.{Bound};
ghost use Rattle.fsm_base.specs.declared.letters.Sym.{Sym};
ghost use Rattle.fsa.specs.Language.{Accepts};
ghost use Rattle.regex_ast.specs.Terms.{atom};
ghost use Rattle.expr_kinds.specs.Atoms.{is_symbol_of};
ghost use Rattle.expr_meaning.specs.Meaning.{InLeaves};
ghost use Rattle.network_algebra.specs.Networks.{IsNetwork, UsesOnly, all_letters};
ghost use Rattle.network_expr.specs.Built.{IsMeant};
ghost use Rattle.network_expr.specs.Parts.{IsGround, is_leaf_of, part_of, stands};
ghost use Rattle.network_expr.specs.declared.parts.Part.{Part};

use crate::parts::{Part, part_of, without_edge};
use fsa::Fsa;
use fsm_base::{Bound, Sym};
use network_algebra::{Network, word};
use regex_ast::Atom;
use std::alloc::{AllocError, Global};

/// The symbol of a leaf.
fn symbol_of(leaf: Atom, alphabet: &[Sym]) -> Sym
    requires { IsTrue (is_symbol_of alphabet.now leaf) }
    ensures { leaf ≡ Atom.Sym result }
{
    match leaf {
        Atom::Sym(symbol) => symbol,
        Atom::Name(_) => unreachable!(),
    }
}

/// The part of a leaf that is a name.
fn part_at<'a>(parts: &[Part<'a>], alphabet: &[Sym], name: u32) -> Part<'a>
    requires ground { IsGround alphabet.now parts.now }
    requires leaf { IsTrue (is_leaf_of parts.now alphabet.now (Atom.Name name)) }
    ensures { part_of parts.now name ≡ Some result }
{
    match part_of(parts, name) {
        Some(part) => part,
        None => unreachable!(),
    }
}

/// The network of a leaf: of a symbol its word, and of a name what its part has.
pub fn leaf(
    alloc: Global,
    alphabet: &[Sym],
    parts: &[Part],
    leaf: Atom,
) -> Result<Network, AllocError>
    requires ground { IsGround alphabet.now parts.now }
    requires leaf { IsTrue (is_leaf_of parts.now alphabet.now leaf) }
    ensures letters { IfOk result (IsNetwork alphabet.now) }
    ensures meaning { IfOk result (IsMeant parts.now alphabet.now (atom leaf)) }
{
    match leaf {
        Atom::Sym(_) => Ok(Network::Words(symbols(alloc, alphabet, &[leaf])?)),
        Atom::Name(name) => without_edge(alloc, part_at(parts, alphabet, name).network),
    }
}

/// The automaton of symbols side by side.
pub fn symbols(
    alloc: Global,
    alphabet: &[Sym],
    leaves: &[Atom],
) -> Result<Fsa<Bound<Sym>>, AllocError>
    requires { IsTrue (list_all (is_symbol_of alphabet.now) leaves.now) }
    ensures letters { IfOk result (UsesOnly (all_letters alphabet.now)) }
    ensures words { IfOk result (λ m. (parts : List Part) (w : List (Bound Sym)) → Accepts m w ↔ InLeaves (stands parts) alphabet.now leaves.now w) }
{
    let mut letters = Vec::new(alloc);
    'leaves: for leaf in leaves {
        letters.push(Bound::Inner(symbol_of(*leaf, alphabet)))?;
    }
    word(alloc, &letters)
}

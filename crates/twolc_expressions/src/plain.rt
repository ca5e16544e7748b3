ghost use Rattle.std.specs.Prelude.{◌≡◌, IfOk};
ghost use Rattle.std.specs.Option.{option_map};
ghost use Rattle.twolc_grammar.specs.Atoms.{centre_in, is_plain_side, one_symbol_in, plain_pair, symbols_in};
ghost use Rattle.project_meaning.specs.Trees.{pair};
ghost use Rattle.twolc_expressions.specs.Views.{pair_view, part_view, side_view};

use crate::atom::{part_in, symbol_in};
use crate::names::KnownNames;
use regex_ast::{PairAtom, PairPart, PairSide, Raw};
use std::alloc::{AllocError, Global};
use twolc_tokens::sides;

/// The pair that an atom of the alphabet is: `x`, which is `x:x`, or `x:y`, each a symbol or `0`.
pub fn symbols_in(alloc: Global, atom: &str) -> Result<Option<PairAtom<Raw>>, AllocError>
    ensures { IfOk result (λ pair. option_map pair_view pair ≡ symbols_in atom.now) }
{
    let names = KnownNames::new(alloc);
    let Some(part) = part_in(alloc, &names, atom)? else {
        return Ok(None);
    };
    Ok(plain_pair(part))
}

/// The pair that the centre of a rule is: `x:y`, each a symbol or `0` and neither one of the names.
pub fn centre_in(
    alloc: Global,
    names: &KnownNames,
    atom: &str,
) -> Result<Option<PairAtom<Raw>>, AllocError>
    ensures { IfOk result (λ pair. option_map pair_view pair ≡ centre_in names.now atom.now) }
{
    let Some(_) = sides(atom) else {
        return Ok(None);
    };
    let Some(part) = part_in(alloc, names, atom)? else {
        return Ok(None);
    };
    Ok(plain_pair(part))
}

/// The symbol that an atom is in the list of a set.
pub fn one_symbol_in(alloc: Global, atom: &str) -> Result<Option<Raw>, AllocError>
    ensures { IfOk result (λ symbol. symbol ≡ one_symbol_in atom.now) }
{
    if let Some(_) = sides(atom) {
        return Ok(None);
    }
    if atom == "0" {
        return Ok(None);
    }
    Ok(Some(symbol_in(alloc, atom)?))
}

/// The pair of a part that is one, of which each side is a symbol or nothing.
fn plain_pair(part: PairPart<Raw>) -> Option<PairAtom<Raw>>
    ensures { option_map pair_view result ≡ plain_pair (part_view part) }
{
    match part {
        PairPart::Atom(atom) => plain_atom(atom),
        PairPart::Named(_) => None,
    }
}

fn plain_atom(atom: PairAtom<Raw>) -> Option<PairAtom<Raw>>
    ensures { option_map pair_view result ≡ plain_pair (pair (pair_view atom)) }
{
    if !is_plain_side(&atom.up) {
        return None;
    }
    if !is_plain_side(&atom.low) {
        return None;
    }
    Some(atom)
}

fn is_plain_side(side: &PairSide<Raw>) -> bool
    ensures { result ≡ is_plain_side (side_view side.now) }
{
    matches!(side, PairSide::Zero | PairSide::One(_))
}

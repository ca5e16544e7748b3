ghost use Rattle.std.specs.Prelude.{◌≡◌, ◌==◌, IfOk};
ghost use Rattle.std.specs.List.{list_any};
ghost use Rattle.std.specs.Option.{option_map};
ghost use Rattle.twolc_grammar.specs.Atoms.{alone_in, is_nothing, pair_in, part_in, side_in, symbol_in};
ghost use Rattle.twolc_expressions.specs.Views.{pair_view, part_view, side_view};

use crate::names::KnownNames;
use fsm_base::Text;
use regex_ast::{PairAtom, PairPart, PairSide, Raw};
use std::alloc::{AllocError, Global};
use twolc_tokens::{sides, undone};

/// What an atom is where these names are known; `None` where it is none.
pub fn part_in(
    alloc: Global,
    names: &KnownNames,
    atom: &str,
) -> Result<Option<PairPart<Raw>>, AllocError>
    ensures { IfOk result (λ part. option_map part_view part ≡ part_in names.now atom.now) }
{
    let Some((up, low)) = sides(atom) else {
        return alone_in(alloc, names, atom);
    };
    let Some(pair) = pair_in(alloc, names, up, low)? else {
        return Ok(None);
    };
    Ok(Some(PairPart::Atom(pair)))
}

/// What a run alone is: a set or a definition by its name, or a symbol on both sides.
fn alone_in(
    alloc: Global,
    names: &KnownNames,
    run: &str,
) -> Result<Option<PairPart<Raw>>, AllocError>
    ensures { IfOk result (λ part. option_map part_view part ≡ alone_in names.now run.now) }
{
    if run == "0" {
        return Ok(None);
    }
    if names.has(run) {
        return Ok(Some(PairPart::Named(Text::of(alloc, run)?)));
    }
    let up = PairSide::One(symbol_in(alloc, run)?);
    let low = PairSide::One(symbol_in(alloc, run)?);
    Ok(Some(PairPart::Atom(PairAtom { up, low })))
}

/// What two sides with a `:` between them are.
fn pair_in(
    alloc: Global,
    names: &KnownNames,
    up: &str,
    low: &str,
) -> Result<Option<PairAtom<Raw>>, AllocError>
    ensures { IfOk result (λ pair. option_map pair_view pair ≡ pair_in names.now up.now low.now) }
{
    if up == "" && low == "" {
        return Ok(None);
    }
    let Some(up) = side_in(alloc, names, up)? else {
        return Ok(None);
    };
    let Some(low) = side_in(alloc, names, low)? else {
        return Ok(None);
    };
    if is_nothing(&up) && is_nothing(&low) {
        return Ok(None);
    }
    Ok(Some(PairAtom { up, low }))
}

fn is_nothing(side: &PairSide<Raw>) -> bool
    ensures { result ≡ is_nothing (side_view side.now) }
{
    matches!(side, PairSide::Zero)
}

/// What a side is.
fn side_in(
    alloc: Global,
    names: &KnownNames,
    run: &str,
) -> Result<Option<PairSide<Raw>>, AllocError>
    ensures { IfOk result (λ side. option_map side_view side ≡ side_in names.now run.now) }
{
    if run == "" || run == "?" {
        return Ok(Some(PairSide::Any));
    }
    if run == "0" {
        return Ok(Some(PairSide::Zero));
    }
    if names.has_set(run) {
        return Ok(Some(PairSide::Member(Text::of(alloc, run)?)));
    }
    if names.has_definition(run) {
        return Ok(None);
    }
    Ok(Some(PairSide::One(symbol_in(alloc, run)?)))
}

/// The symbol that a run is, its escapes undone.
pub fn symbol_in(alloc: Global, run: &str) -> Result<Raw, AllocError>
    ensures { IfOk result (λ raw. raw ≡ symbol_in run.now) }
{
    if is_escaped(run.as_bytes()) {
        let text = Text::from_string(undone(alloc, run)?)?;
        return Ok(Raw::Quoted(text));
    }
    Ok(Raw::Run(Text::of(alloc, run)?))
}

/// Whether an escape stands in a run.
fn is_escaped(run: &[u8]) -> bool
    ensures { result ≡ list_any (λ b. b == 37) run.now }
{
    run.iter().any(|byte| *byte == b'%')
}

ghost use Rattle.std.specs.Prelude.{◌≡◌, IfOk, map};
ghost use Rattle.std.specs.Option.{option_map};
ghost use Rattle.twolc_expressions.specs.Views.{pair_view};
ghost use Rattle.twolc_expressions.specs.Reading.{IsFound};
ghost use Rattle.twolc_grammar.specs.Atoms.{no_names, one_symbol_in, symbols_in};
ghost use Rattle.twolc_grammar.specs.Sections.{tokens_of};
ghost use Rattle.twolc_grammar.specs.Statements.{IsStatement, alphabet, in_alphabet, in_sets, set};
ghost use Rattle.twolc_reader.specs.StatementReading.{each_found, of_atom, pair_in, set_view, symbol_in};

use crate::split::{split_end, split_name};
use fsm_base::Text;
use regex_ast::{PairAtom, Raw, SetOf};
use std::alloc::{AllocError, Global};
use twolc_expressions::{one_symbol_in, symbols_in};
use twolc_tokens::{Placed, Token};

/// The pairs of the alphabet that the tokens list; `None` where they are no list of pairs.
pub fn alphabet_in(
    alloc: Global,
    tokens: &[Placed],
) -> Result<Option<Vec<PairAtom<Raw>>>, AllocError>
    ensures { IfOk result (λ found. IsFound (λ pairs. IsStatement no_names in_alphabet (tokens_of tokens.now) (alphabet pairs)) (option_map (λ ps. map pair_view ps.items) found)) }
{
    let Some(atoms) = split_end(tokens) else {
        return Ok(None);
    };
    pairs_in(alloc, atoms)
}

/// The set that the tokens are; `None` where they are none.
pub fn set_in(alloc: Global, tokens: &[Placed]) -> Result<Option<SetOf<Raw>>, AllocError>
    ensures { IfOk result (λ found. IsFound (λ s. IsStatement no_names in_sets (tokens_of tokens.now) (set s)) (option_map set_view found)) }
{
    let Some((name, list)) = split_name(tokens) else {
        return Ok(None);
    };
    let Some(atoms) = split_end(list) else {
        return Ok(None);
    };
    if atoms.is_empty() {
        return Ok(None);
    }
    let Some(symbols) = symbols_of(alloc, atoms)? else {
        return Ok(None);
    };
    let name = Text::of(alloc, name.as_str())?;
    Ok(Some(SetOf { name, symbols }))
}

/// The pairs that these tokens are, each an atom of the alphabet.
fn pairs_in(alloc: Global, tokens: &[Placed]) -> Result<Option<Vec<PairAtom<Raw>>>, AllocError>
    ensures { IfOk result (λ found. option_map (λ ps. map pair_view ps.items) found ≡ each_found pair_in (tokens_of tokens.now)) }
{
    let mut found = Vec::new(alloc);
    'tokens: for placed in tokens {
        let Some(pair) = pair_in(alloc, &placed.token)? else {
            return Ok(None);
        };
        found.push(pair)?;
    }
    Ok(Some(found))
}

/// The pair that a token is.
fn pair_in(alloc: Global, token: &Token) -> Result<Option<PairAtom<Raw>>, AllocError>
    ensures { IfOk result (λ pair. option_map pair_view pair ≡ pair_in token.now) }
{
    match token {
        Token::Atom(atom) => symbols_in(alloc, atom.as_str()),
        _ => Ok(None),
    }
}

/// The symbols that these tokens are, each an atom of the list of a set.
fn symbols_of(alloc: Global, tokens: &[Placed]) -> Result<Option<Vec<Raw>>, AllocError>
    ensures { IfOk result (λ found. option_map (λ symbols. symbols.items) found ≡ each_found symbol_in (tokens_of tokens.now)) }
{
    let mut found = Vec::new(alloc);
    'tokens: for placed in tokens {
        let Some(symbol) = symbol_in(alloc, &placed.token)? else {
            return Ok(None);
        };
        found.push(symbol)?;
    }
    Ok(Some(found))
}

/// The symbol that a token is.
fn symbol_in(alloc: Global, token: &Token) -> Result<Option<Raw>, AllocError>
    ensures { IfOk result (λ symbol. symbol ≡ symbol_in token.now) }
{
    match token {
        Token::Atom(atom) => one_symbol_in(alloc, atom.as_str()),
        _ => Ok(None),
    }
}

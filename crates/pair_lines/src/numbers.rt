ghost use Rattle.std.specs.Prelude.{◌≡◌, ◌↔◌, IfOk, List, ℕ, MatchOption, Contains, Some, map};
ghost use Rattle.project_meaning.specs.Leaves.{written};
ghost use Rattle.twolc_expressions.specs.Views.{pair_view, side_view};
ghost use Rattle.pair_lines.specs.Numbers.{IsAmong, IsNumbered, pair_in, side_in};
ghost use Rattle.pair_lines.specs.Ready.{HasNumbers};
ghost use Rattle.pair_lines.specs.Strings.{letter_of, text_on};

use fsm_base::{Alphabet, Pair, Sym};
use grammar_pairs::{NameTable, PairTable};
use regex_ast::{PairAtom, PairSide, Raw};
use std::alloc::{AllocError, Global};

/// A string of pairs by the numbers of their symbols.
#[derive(Drop)]
pub enum Numbered {
    /// Each is one of the pairs that there are.
    Word(Vec<Pair>),
    /// The first that is none of them has this number, counted from 1.
    Outside(usize),
}

/// The symbols of an alphabet by their texts.
pub fn numbers_of(alloc: Global, alphabet: &Alphabet) -> Result<NameTable<Sym>, AllocError>
    ensures { IfOk result (HasNumbers alphabet.now) }
{
    let mut numbers = NameTable::new(alloc);
    'symbols: for symbol in alphabet.symbols() {
        let text = alphabet.text(alloc, &[*symbol])?;
        numbers.put(text.as_str(), *symbol)?;
    }
    Ok(numbers)
}

/// The text of a symbol as it is written.
fn written(symbol: &Raw) -> &str
    ensures { result.now ≡ written symbol.now }
{
    match symbol {
        Raw::Run(text) => text.as_str(),
        Raw::Quoted(text) => text.as_str(),
    }
}

/// A side by its symbol, if there is such a symbol. In a pair string a side that is no symbol is `0`.
fn side_in(numbers: &NameTable<Sym>, side: &PairSide<Raw>) -> Option<Option<Sym>>
    ensures { result ≡ side_in numbers.now (text_on (side_view side.now)) }
{
    match side {
        PairSide::One(symbol) => match numbers.get(written(symbol)) {
            Some(number) => Some(Some(*number)),
            None => None,
        },
        _ => Some(None),
    }
}

/// A pair by its symbols, if there are such symbols.
fn pair_in(numbers: &NameTable<Sym>, pair: &PairAtom<Raw>) -> Option<Pair>
    ensures { result ≡ pair_in numbers.now (letter_of (pair_view pair.now)) }
{
    let up = side_in(numbers, &pair.up)?;
    let low = side_in(numbers, &pair.low)?;
    Some(Pair { up, low })
}

/// A pair by its symbols, if it is one of these.
fn among(numbers: &NameTable<Sym>, pairs: &PairTable, pair: &PairAtom<Raw>) -> Option<Pair>
    ensures { MatchOption result (¬ IsAmong numbers.now pairs.now (letter_of (pair_view pair.now))) (λ y. (pair_in numbers.now (letter_of (pair_view pair.now)) ≡ Some y) × Contains pairs.now y) }
{
    let found = pair_in(numbers, pair)?;
    let _number = pairs.number_of(found)?;
    Some(found)
}

/// A string of pairs by the numbers of their symbols, or the number of the first that is none of these.
pub fn by_numbers(
    alloc: Global,
    numbers: &NameTable<Sym>,
    pairs: &PairTable,
    string: &[PairAtom<Raw>],
) -> Result<Numbered, AllocError>
    ensures { IfOk result (IsNumbered numbers.now pairs.now (map (λ p. letter_of (pair_view p)) string.now)) }
{
    let mut word = Vec::with_capacity(alloc, string.len())?;
    'pairs: for pair in string {
        let Some(pair) = among(numbers, pairs, pair) else {
            return Ok(Numbered::Outside(word.len() + 1));
        };
        word.push(pair)?;
    }
    Ok(Numbered::Word(word))
}

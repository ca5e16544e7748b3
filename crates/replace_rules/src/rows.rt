ghost use Rattle.std.specs.Prelude.{◌≡◌, ◌<◌, ◌++◌, ◌∷◌, [], IfOk, OnOk, Some, map, option_map, length, slice_get};
ghost use Rattle.std.specs.List.{flat_map};
ghost use Rattle.fsm_base.specs.declared.letters.Bound.TheVariants.{Inner};
ghost use Rattle.fsm_base.specs.declared.letters.Sym.{Sym};
ghost use Rattle.replace_words.specs.Marked.{side_of, on_left, on_right};
ghost use Rattle.replace_words.specs.Firsts.{first_mark};
ghost use Rattle.replace_rules.specs.Letters.{pair_of, left_table, right_table, pair_table, own_table, table_of, first_table, marks_with, brackets};

use fsm_base::{Bound, Pair, Sym};
use regex_ast::Side;
use replace_words::Mark;
use std::alloc::{AllocError, Global};

/// What a left context reads of a mark: its symbol on the side that is read, where it has one, and the edge of the word.
fn read_left(mark: Bound<Mark>, side: Side) -> Option<Bound<Sym>>
    ensures { result ≡ side_of (on_left side) mark }
{
    let Bound::Inner(mark) = mark else {
        return Some(Bound::Edge);
    };
    let symbol = match side {
        Side::UpUp | Side::UpLow => mark.upper(),
        Side::LowUp | Side::LowLow => mark.lower(),
    };
    inner_symbol(symbol)
}

/// What a right context reads of a mark.
fn read_right(mark: Bound<Mark>, side: Side) -> Option<Bound<Sym>>
    ensures { result ≡ side_of (on_right side) mark }
{
    let Bound::Inner(mark) = mark else {
        return Some(Bound::Edge);
    };
    let symbol = match side {
        Side::UpUp | Side::LowUp => mark.upper(),
        Side::UpLow | Side::LowLow => mark.lower(),
    };
    inner_symbol(symbol)
}

/// The symbol, where there is one, as one inside the word.
fn inner_symbol(symbol: Option<Sym>) -> Option<Bound<Sym>>
    ensures { result ≡ option_map Inner symbol }
{
    match symbol {
        Some(symbol) => Some(Bound::Inner(symbol)),
        None => None,
    }
}

/// The pair of a mark's symbols, or None where it has none.
fn pair_of(mark: Bound<Mark>) -> Option<Pair>
    ensures { result ≡ pair_of mark }
{
    let Bound::Inner(mark) = mark else {
        return None;
    };
    let (up, low) = (mark.upper(), mark.lower());
    if up.is_none() && low.is_none() {
        return None;
    }
    Some(Pair { up, low })
}

/// The table of what a left context reads.
pub fn left_rows(
    alloc: Global,
    marks: &[Bound<Mark>],
    side: Side,
) -> Result<Vec<(Bound<Mark>, Option<Bound<Sym>>)>, AllocError>
    ensures { IfOk result (λ rows. rows.items ≡ left_table side marks.now) }
{
    let mut rows = Vec::new(alloc);
    for mark in marks {
        rows.push((*mark, read_left(*mark, side)))?;
    }
    Ok(rows)
}

/// The table of what a right context reads.
pub fn right_rows(
    alloc: Global,
    marks: &[Bound<Mark>],
    side: Side,
) -> Result<Vec<(Bound<Mark>, Option<Bound<Sym>>)>, AllocError>
    ensures { IfOk result (λ rows. rows.items ≡ right_table side marks.now) }
{
    let mut rows = Vec::new(alloc);
    for mark in marks {
        rows.push((*mark, read_right(*mark, side)))?;
    }
    Ok(rows)
}

/// The table of the pairs of marks.
pub fn pair_rows(
    alloc: Global,
    marks: &[Bound<Mark>],
) -> Result<Vec<(Bound<Mark>, Option<Pair>)>, AllocError>
    ensures { IfOk result (λ rows. rows.items ≡ pair_table marks.now) }
{
    let mut rows = Vec::new(alloc);
    for mark in marks {
        rows.push((*mark, pair_of(*mark)))?;
    }
    Ok(rows)
}

/// The table that gives each mark itself.
pub fn own_rows(
    alloc: Global,
    marks: &[Bound<Mark>],
) -> Result<Vec<(Bound<Mark>, Option<Bound<Mark>>)>, AllocError>
    ensures { IfOk result (λ rows. rows.items ≡ own_table marks.now) }
{
    let mut rows = Vec::new(alloc);
    for mark in marks {
        rows.push((*mark, Some(*mark)))?;
    }
    Ok(rows)
}

/// The table that gives each mark of the symbols and of so many places the mark of the first of its symbol's like. The firsts are given
/// in the order of the symbols.
pub fn first_rows(
    alloc: Global,
    symbols: &[Sym],
    firsts: &[Sym],
    places: usize,
) -> Result<Vec<(Bound<Mark>, Option<Bound<Mark>>)>, AllocError>
    requires { length firsts.now ≡ length symbols.now }
    ensures { IfOk result (λ rows. (first : Sym → Sym) → firsts.now ≡ map first symbols.now → rows.items ≡ first_table first symbols.now places) }
{
    let mut rows = Vec::new(alloc);
    rows.push((Bound::Edge, Some(Bound::Edge)))?;
    add_symbols(&mut rows, symbols, firsts)?;
    add_brackets(&mut rows, places)?;
    Ok(rows)
}

/// Adds the rows of the marks of each symbol.
fn add_symbols(
    rows: &mut Vec<(Bound<Mark>, Option<Bound<Mark>>)>,
    symbols: &[Sym],
    firsts: &[Sym],
) -> Result<(), AllocError>
    requires { length firsts.now ≡ length symbols.now }
    ensures { OnOk result ((first : Sym → Sym) → firsts.now ≡ map first symbols.now → rows.new.items ≡ rows.old.items ++ table_of (λ m. Some (first_mark first m)) (flat_map marks_with symbols.now)) }
{
    for place in 0..symbols.len() {
        let symbol = symbol_at(symbols, place);
        let first = symbol_at(firsts, place);
        add_symbol(rows, symbol, first)?;
    }
    Ok(())
}

/// The symbol at a place.
pub fn symbol_at(symbols: &[Sym], place: usize) -> Sym
    requires { place < length symbols.now }
    ensures { slice_get symbols.now place ≡ Some result }
{
    symbols[place]
}

/// Adds the rows of the marks of a symbol.
fn add_symbol(
    rows: &mut Vec<(Bound<Mark>, Option<Bound<Mark>>)>,
    symbol: Sym,
    first: Sym,
) -> Result<(), AllocError>
    ensures { OnOk result ((f : Sym → Sym) → first ≡ f symbol → rows.new.items ≡ rows.old.items ++ table_of (λ m. Some (first_mark f m)) (marks_with symbol)) }
{
    add_row(rows, Mark::Copy(symbol), Mark::Copy(first))?;
    add_row(rows, Mark::Up(symbol), Mark::Up(first))?;
    add_row(rows, Mark::Low(symbol), Mark::Low(first))?;
    add_row(rows, Mark::Same(symbol), Mark::Same(first))?;
    Ok(())
}

/// Adds the rows of the brackets of each place.
fn add_brackets(
    rows: &mut Vec<(Bound<Mark>, Option<Bound<Mark>>)>,
    places: usize,
) -> Result<(), AllocError>
    ensures { OnOk result ((f : Sym → Sym) → rows.new.items ≡ rows.old.items ++ table_of (λ m. Some (first_mark f m)) (brackets places)) }
{
    for place in 0..places {
        add_row(rows, Mark::Open(place), Mark::Open(place))?;
        add_row(rows, Mark::Close(place), Mark::Close(place))?;
    }
    Ok(())
}

/// Adds the row of a mark.
fn add_row(
    rows: &mut Vec<(Bound<Mark>, Option<Bound<Mark>>)>,
    mark: Mark,
    first: Mark,
) -> Result<(), AllocError>
    ensures { OnOk result (rows.new.items ≡ rows.old.items ++ (Inner mark, Some (Inner first)) ∷ []) }
{
    rows.push((Bound::Inner(mark), Some(Bound::Inner(first))))?;
    Ok(())
}

ghost use Rattle.std.specs.Prelude.{◌≡◌, ◌↔◌, ◌++◌, IfOk, OnOk, Contains};
ghost use Rattle.std.specs.List.{flat_map};
ghost use Rattle.fsm_base.specs.declared.letters.Bound.{Bound};
ghost use Rattle.word_relations.specs.Words.{IsDistinct};
ghost use Rattle.replace_words.specs.declared.marks.Mark.{Mark};
ghost use Rattle.replace_rules.specs.Letters.{IsMarkOf, marks_with, brackets};

use fsm_base::{Bound, Sym};
use replace_words::Mark;
use std::alloc::{AllocError, Global};

/// All marks of the symbols and of so many places, and the edge of the word; each once, where each symbol is given once.
pub fn every_mark(
    alloc: Global,
    symbols: &[Sym],
    places: usize,
) -> Result<Vec<Bound<Mark>>, AllocError>
    ensures all { IfOk result (λ marks. (m : Bound Mark) → Contains marks.items m ↔ IsMarkOf symbols.now places m) }
    ensures once { IsDistinct symbols.now → IfOk result (λ marks. IsDistinct marks.items) }
{
    let mut marks = Vec::new(alloc);
    marks.push(Bound::Edge)?;
    add_symbols(&mut marks, symbols)?;
    add_brackets(&mut marks, places)?;
    Ok(marks)
}

/// Adds the marks of each symbol.
fn add_symbols(marks: &mut Vec<Bound<Mark>>, symbols: &[Sym]) -> Result<(), AllocError>
    ensures { OnOk result (marks.new.items ≡ marks.old.items ++ flat_map marks_with symbols.now) }
{
    for symbol in symbols {
        marks.push(Bound::Inner(Mark::Copy(*symbol)))?;
        marks.push(Bound::Inner(Mark::Up(*symbol)))?;
        marks.push(Bound::Inner(Mark::Low(*symbol)))?;
        marks.push(Bound::Inner(Mark::Same(*symbol)))?;
    }
    Ok(())
}

/// Adds the brackets of each place.
fn add_brackets(marks: &mut Vec<Bound<Mark>>, places: usize) -> Result<(), AllocError>
    ensures { OnOk result (marks.new.items ≡ marks.old.items ++ brackets places) }
{
    for place in 0..places {
        marks.push(Bound::Inner(Mark::Open(place)))?;
        marks.push(Bound::Inner(Mark::Close(place)))?;
    }
    Ok(())
}

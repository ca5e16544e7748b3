ghost use Rattle.std.specs.Prelude.{◌≡◌, ◌↔◌, ◌++◌, IfOk, OnOk, Contains, length};
ghost use Rattle.word_relations.specs.Words.{IsDistinct};
ghost use Rattle.replace_marks.specs.Marks.{IsMarkOf, count_of, upper_of, lower_of};
ghost use Rattle.replace_marks.specs.Listed.{marks_by};

use fsm_base::{Letter, Sym};
use std::alloc::{AllocError, Global};

/// A letter of a word of marks. A mapping is told by its number, counted from 0.
#[derive(Clone, Copy, Debug, PartialEq, Eq, PartialOrd, Ord, Hash)]
pub enum Mark {
    /// A symbol that is copied.
    Copy(Sym),
    /// A symbol of a centre that the mapping replaces.
    Up(u32, Sym),
    /// A symbol of the word by which the mapping replaces a centre.
    Low(u32, Sym),
    /// A replacement by the mapping begins.
    Open(u32),
    /// A replacement by the mapping ends.
    Close(u32),
}

impl Letter for Mark {
    ghost use Rattle.std.proofs.Common.{rules};

    ghost equal_is_same = { Prim.search rules };
}

impl Mark {
    /// The symbol on the upper side, where there is one.
    pub fn upper(self) -> Option<Sym>
        ensures { result ≡ upper_of self }
    {
        match self {
            Mark::Copy(symbol) | Mark::Up(_, symbol) => Some(symbol),
            Mark::Low(..) | Mark::Open(_) | Mark::Close(_) => None,
        }
    }

    /// The symbol on the lower side, where there is one.
    pub fn lower(self) -> Option<Sym>
        ensures { result ≡ lower_of self }
    {
        match self {
            Mark::Copy(symbol) | Mark::Low(_, symbol) => Some(symbol),
            Mark::Up(..) | Mark::Open(_) | Mark::Close(_) => None,
        }
    }
}

/// All marks of the symbols and of so many mappings, each once where each symbol is given once. It takes as many
/// steps as there are marks.
pub fn marks_of(alloc: Global, syms: &[Sym], maps: u32) -> Result<Vec<Mark>, AllocError>
    ensures all { IfOk result (λ marks. (m : Mark) → Contains marks.items m ↔ IsMarkOf syms.now maps m) }
    ensures count { IfOk result (λ marks. length marks.items ≡ count_of (length syms.now) maps) }
    ensures once { IsDistinct syms.now → IfOk result (λ marks. IsDistinct marks.items) }
{
    let mut marks = Vec::new(alloc);
    for symbol in syms {
        marks.push(Mark::Copy(*symbol))?;
    }
    for map in 0..maps {
        add_marks_by(&mut marks, map, syms)?;
    }
    Ok(marks)
}

/// Adds the marks of one mapping.
fn add_marks_by(marks: &mut Vec<Mark>, map: u32, syms: &[Sym]) -> Result<(), AllocError>
    ensures { OnOk result (marks.new.items ≡ marks.old.items ++ marks_by syms.now map) }
{
    marks.push(Mark::Open(map))?;
    marks.push(Mark::Close(map))?;
    for symbol in syms {
        marks.push(Mark::Up(map, *symbol))?;
    }
    for symbol in syms {
        marks.push(Mark::Low(map, *symbol))?;
    }
    Ok(())
}

ghost use Rattle.std.specs.Prelude.{◌≡◌};
ghost use Rattle.std.proofs.Common.{rules};
ghost use Rattle.replace_words.specs.Marked.{upper_of, lower_of};

use fsm_base::{Letter, Sym};

/// A mark of a rewriting. Places are numbered from 0.
#[derive(Clone, Copy, Debug, PartialEq, Eq, PartialOrd, Ord)]
pub enum Mark {
    /// A symbol that is copied outside of replacements.
    Copy(Sym),
    /// A symbol of a centre that is replaced.
    Up(Sym),
    /// A symbol of what replaces a centre.
    Low(Sym),
    /// A symbol of a centre that stands in what replaces it too.
    Same(Sym),
    /// A replacement by the place of this number begins.
    Open(usize),
    /// It ends.
    Close(usize),
}

impl Letter for Mark {
    ghost equal_is_same = { Prim.search rules };
}

impl Mark {
    /// The symbol on the upper side, where there is one.
    pub fn upper(self) -> Option<Sym>
        ensures { result ≡ upper_of self }
    {
        match self {
            Mark::Copy(symbol) | Mark::Up(symbol) | Mark::Same(symbol) => Some(symbol),
            Mark::Low(_) | Mark::Open(_) | Mark::Close(_) => None,
        }
    }

    /// The symbol on the lower side, where there is one.
    pub fn lower(self) -> Option<Sym>
        ensures { result ≡ lower_of self }
    {
        match self {
            Mark::Copy(symbol) | Mark::Low(symbol) | Mark::Same(symbol) => Some(symbol),
            Mark::Up(_) | Mark::Open(_) | Mark::Close(_) => None,
        }
    }
}

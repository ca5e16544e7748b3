ghost use Rattle.std.specs.Prelude.{◌≡◌};
ghost use Rattle.std.specs.declared.cmp.Ordering.{Ordering};
ghost use Rattle.std.proofs.Common.{rules};

/// A letter of an automaton. Letters are ordered, so that they can be sorted and found again.
pub trait Letter: Copy + Ord {
    /// A mark for [`crate::Hints`], which few other letters have. Nothing is said of it.
    fn mark(self) -> usize {
        0
    }

    /// Letters that compare equal are equal.
    ghost equal_is_same: { (x y : Self) → Self.cmp x y ≡ Ordering.Equal → x ≡ y };
}

/// A symbol, by its number in a symbol table.
#[derive(Clone, Copy, Debug, PartialEq, Eq, PartialOrd, Ord, Hash)]
pub struct Sym(pub u32);

/// A letter of a transducer: a symbol, or none, on its upper and on its lower side.
#[derive(Clone, Copy, Debug, PartialEq, Eq, PartialOrd, Ord, Hash)]
pub struct Pair {
    /// The symbol of the upper, lexical side.
    pub up: Option<Sym>,
    /// The symbol of the lower, surface side.
    pub low: Option<Sym>,
}

/// A letter, or the edge of the word, which contexts may name.
#[derive(Clone, Copy, Debug, PartialEq, Eq, PartialOrd, Ord, Hash)]
pub enum Bound<L> {
    /// The edge of the word.
    Edge,
    /// A letter inside the word.
    Inner(L),
}

impl Letter for Sym {
    ghost equal_is_same = { Prim.search rules };

    fn mark(self) -> usize {
        self.0 as usize
    }
}

impl Letter for Pair {
    ghost equal_is_same = { Prim.search rules };

    fn mark(self) -> usize {
        self.up
            .mark()
            .wrapping_add(self.low.mark().wrapping_mul(32))
    }
}

impl<L: Letter> Letter for Bound<L> {
    ghost equal_is_same = { Prim.search rules };

    fn mark(self) -> usize {
        match self {
            Bound::Edge => 0,
            Bound::Inner(letter) => letter.mark().wrapping_add(1),
        }
    }
}

/// A letter, or none.
impl<L: Letter> Letter for Option<L> {
    ghost equal_is_same = { Prim.search rules };

    fn mark(self) -> usize {
        match self {
            Some(letter) => letter.mark().wrapping_add(1),
            None => 0,
        }
    }
}

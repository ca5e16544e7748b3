ghost use Rattle.std.proofs.Common.{rules};

use fsm_base::{Letter, Pair};

/// A letter of a network with flag diacritics: a pair of symbols, or a flag on one side, by its number in a list
/// of flags, counted from 0.
#[derive(Clone, Copy, Debug, PartialEq, Eq, PartialOrd, Ord, Hash)]
pub enum Tape {
    /// A pair of symbols.
    Pair(Pair),
    /// A flag on the upper, lexical side.
    UpFlag(u32),
    /// A flag on the lower, surface side.
    LowFlag(u32),
}

impl Letter for Tape {
    ghost equal_is_same = { Prim.search rules };

    fn mark(self) -> usize {
        match self {
            Tape::Pair(pair) => pair.mark(),
            Tape::UpFlag(flag) => (flag as usize).wrapping_add(512),
            Tape::LowFlag(flag) => (flag as usize).wrapping_add(768),
        }
    }
}

ghost use Rattle.std.specs.Prelude.{◌↔◌, IsTrue};
ghost use Rattle.lang_equal.specs.Difference.{sought};

/// Which words are sought, by whether a word is in each of two languages.
#[derive(Clone, Copy, Debug, PartialEq, Eq)]
pub(crate) enum Sought {
    /// Those that are in exactly one of the two.
    Differing,
    /// Those of the first that aren't in the second.
    Outside,
}

impl Sought {
    /// Whether a word is sought.
    pub(crate) fn has(self, in_first: bool, in_second: bool) -> bool
        ensures { IsTrue result ↔ sought self (IsTrue in_first) (IsTrue in_second) }
    {
        match self {
            Sought::Differing => in_first && !in_second || in_second && !in_first,
            Sought::Outside => in_first && !in_second,
        }
    }
}

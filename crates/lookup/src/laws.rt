ghost use Rattle.lookup.specs.OneKind.{OneKindOfLower, OneKindOfUpper};

/// The law that no two kinds of [`crate::Answer`] are lawful for one word: the related texts are up to 4,096, or
/// finitely many and more, or without end. It does nothing when it runs.
pub fn one_kind()
    ensures upper { OneKindOfUpper }
    ensures lower { OneKindOfLower }
{}

ghost use Rattle.lookup_answers.specs.OneKind.{OneKind};

/// The law that no two kinds of [`crate::Answer`] are lawful for one set of texts: they are up to 4,096, or finitely many
/// and more, or without end. It does nothing when it runs.
pub fn one_kind()
    ensures { OneKind }
{}

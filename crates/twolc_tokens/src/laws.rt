ghost use Rattle.twolc_tokens.specs.Cuts.{HasOneCut};

/// The law of the cut, which [`crate::tokens`] computes: a text has one. It does nothing when it runs.
pub fn one_cut()
    ensures { HasOneCut }
{}

ghost use Rattle.project_meaning.specs.Laws.{DepthIsEnough, KindsUnfold, NamesMayComeLater, NamesUnfold, NothingTouched, PositiveFlagsAsBefore, WeightsUnfold};

/// Where no name reaches itself, names mean the same to every depth that isn't less than the number of definitions.
pub fn depth_is_enough()
    ensures { DepthIsEnough }
{}

/// Where no name reaches itself, a name means what its definition relates, each name in it standing for what that means.
pub fn names_unfold()
    ensures { NamesUnfold }
{}

/// Where no name reaches itself, a name has the kind of its definition.
pub fn kinds_unfold()
    ensures { KindsUnfold }
{}

/// Where no name reaches itself, a name has the weight of its definition.
pub fn weights_unfold()
    ensures { WeightsUnfold }
{}

/// A definition may use names that are defined behind it.
pub fn names_may_come_later()
    ensures { NamesMayComeLater }
{}

/// Between equal projects no name is touched.
pub fn nothing_touched()
    ensures { NothingTouched }
{}

/// Flags of which none is negative, `@N.F.V@`, pass where they pass by the table without negative flags.
pub fn positive_flags_as_before()
    ensures { PositiveFlagsAsBefore }
{}

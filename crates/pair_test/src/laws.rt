ghost use Rattle.pair_test.specs.Rules.{KeepsUnbroken, PassingIsRelated};

/// The law that a string of pairs keeps a rule exactly where it breaks it at no place. It does nothing when it runs.
pub fn keeps_where_unbroken()
    ensures { KeepsUnbroken }
{}

/// The law that the two sides, without zeros, of a string that passes are related by the grammar. It does nothing when it runs.
pub fn passing_is_related()
    ensures { PassingIsRelated }
{}

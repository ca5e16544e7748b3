ghost use Rattle.name_resolution.specs.Leaves.{SymbolsAreOfLeaves};
ghost use Rattle.name_resolution.specs.NumberedGrammars.{IsResolvedByNumber};

/// A grammar by numbers is the resolved grammar, each leaf by its number.
pub fn is_resolved_by_number()
    ensures { IsResolvedByNumber }
{}

/// The symbols that stand in a grammar are those of its leaves.
pub fn symbols_are_of_leaves()
    ensures { SymbolsAreOfLeaves }
{}

ghost use Rattle.name_resolution.specs.NumberedLexicons.{AreResolvedByNumber};
ghost use Rattle.name_resolution.specs.Symbols.{SymbolsAreOfForms};

/// Lexicons by numbers are the resolved lexicons, each leaf by its number.
pub fn are_resolved_by_number()
    ensures { AreResolvedByNumber }
{}

/// The symbols that stand in lexicons where names are defined are those of their forms.
pub fn symbols_are_of_forms()
    ensures { SymbolsAreOfForms }
{}

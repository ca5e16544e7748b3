ghost use Rattle.two_level.specs.Spelled.{GrammarIsSpelled};

/// The law that what a grammar over numbers of symbols relates is what the same grammar over their texts relates. It does nothing
/// when it runs.
pub fn grammar_is_spelled()
    ensures { GrammarIsSpelled }
{}

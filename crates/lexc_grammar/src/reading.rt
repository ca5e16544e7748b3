ghost use Rattle.lexc_grammar.specs.Laws.{OneReading};

/// The law that a text says one thing only: its lexicons, or one fault. It does nothing when it runs.
pub fn one_reading()
    ensures { OneReading }
{}

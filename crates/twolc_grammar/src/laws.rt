ghost use Rattle.twolc_grammar.specs.Sections.{OneReading};

/// The law that a text says one thing only: its grammar, or one fault. It does nothing when it runs.
pub fn one_reading()
    ensures { OneReading }
{}

ghost use Rattle.regex_grammar.specs.Whole.{OneReading};

/// The law that tokens are read in one way only: the trees that they spell say one term, and tokens that no tree
/// spells are never read. It does nothing when it runs.
pub fn one_reading()
    ensures { OneReading }
{}

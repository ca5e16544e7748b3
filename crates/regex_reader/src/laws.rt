ghost use Rattle.regex_reader.specs.Reads.{OneReading, OneExpression};

/// The law that a text says one thing only: its definitions, or one fault. It does nothing when it runs.
pub fn one_reading()
    ensures { OneReading }
{}

/// The law that a text says one thing only as an expression of an entry. It does nothing when it runs.
pub fn one_expression()
    ensures { OneExpression }
{}

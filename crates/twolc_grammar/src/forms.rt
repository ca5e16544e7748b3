ghost use Rattle.twolc_grammar.specs.Forms.{GrammarsAreFormed};

/// The law that the expressions and the rules of a grammar that a text says have the forms that stand in a text. It does nothing
/// when it runs.
pub fn grammars_are_formed()
    ensures { GrammarsAreFormed }
{}

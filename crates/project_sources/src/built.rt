ghost use Rattle.project_sources.specs.BuiltLaws.{BodiesAreBuilt, ExpressionsAreBuilt, GrammarsAreBuilt, LexiconsAreBuilt};

/// The expressions of an xfst text are compiled, wherever names are defined.
pub fn expressions_are_built()
    ensures { ExpressionsAreBuilt }
{}

/// The lexicons of a lexc text are compiled.
pub fn lexicons_are_built()
    ensures { LexiconsAreBuilt }
{}

/// The grammar of a twolc text is compiled.
pub fn grammars_are_built()
    ensures { GrammarsAreBuilt }
{}

/// Each definition that files say has a body that is compiled.
pub fn bodies_are_built()
    ensures { BodiesAreBuilt }
{}

ghost use Rattle.lexc_grammar.specs.Files.{OneSpelling};

/// No two keywords are spelled alike.
pub fn one_spelling()
    ensures { OneSpelling }
{}

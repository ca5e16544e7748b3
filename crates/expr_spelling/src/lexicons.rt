ghost use Rattle.fsm_base.specs.declared.letters.Sym.{Sym};
ghost use Rattle.regex_ast.specs.declared.expr.Atom.{Atom};
ghost use Rattle.regex_ast.specs.declared.expr.Raw.{Raw};
ghost use Rattle.expr_meaning.specs.Leaves.{stands_for};
ghost use Rattle.project_meaning.specs.Lexicons.{text_in};
ghost use Rattle.project_meaning.specs.Meaning.{Meaning, stands_for as text_stands_for};
ghost use Rattle.project_meaning.specs.Projects.{Project};
ghost use Rattle.expr_spelling.specs.LexiconLaws.{LexiconsAreSpelled, LexiconsNeedNoAlphabet, ResolvedAreMapped};

/// Lexicons relate the same words in symbols and in texts, where their leaves and letters do, whatever symbol an atom is.
pub fn lexicons_are_spelled()
    ensures { (project : Project) (symbol_in : Atom → Sym) → LexiconsAreSpelled Raw symbol_in text_in stands_for (text_stands_for (Meaning project)) }
{}

/// Lexicons where names are defined are those that are written, with other leaves.
pub fn resolved_are_mapped()
    ensures { ResolvedAreMapped }
{}

/// Lexicons in which no expression uses the alphabet relate the same over every one.
pub fn lexicons_need_no_alphabet()
    ensures symbols { (symbol_in : Atom → Sym) → LexiconsNeedNoAlphabet symbol_in stands_for }
    ensures texts { (project : Project) → LexiconsNeedNoAlphabet text_in (text_stands_for (Meaning project)) }
{}

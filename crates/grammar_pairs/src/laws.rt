ghost use Rattle.regex_ast.specs.declared.expr.Raw.{Raw};
ghost use Rattle.grammar_pairs.specs.Laws.{GrammarIsInTexts, ResolvedIsMapped};

/// A grammar whose leaves are replaced by symbols, and these by their texts, is the grammar of the texts. It does nothing when it
/// runs.
pub fn grammar_is_in_texts()
    ensures { GrammarIsInTexts Raw }
{}

/// A grammar that is resolved is the one that is written, with other leaves. It does nothing when it runs.
pub fn resolved_is_mapped()
    ensures { ResolvedIsMapped }
{}

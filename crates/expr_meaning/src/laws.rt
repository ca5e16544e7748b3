ghost use Rattle.expr_meaning.specs.Laws.{LanguageRelatesItself, EmptyContextAllowsAll, EdgeIsAtBeginning, EdgeIsAtEnd, NotIsUndone, InverseIsUndone, CompositionIsBoth, CrossesCompose, OtherSymbol, OnlyBehind, RulesReplaceAll, OptionalRulesLeaveAll, RulesLeaveOthers, OptionalRulesTurn};

/// What a language relates is each of its words, to itself.
pub fn language_relates_itself()
    ensures { LanguageRelatesItself }
{}

/// `A => _` holds of all words over the alphabet.
pub fn empty_context_allows_all()
    ensures { EmptyContextAllowsAll }
{}

/// The context `.#. _` holds at the beginning of a word alone.
pub fn edge_is_at_beginning()
    ensures { EdgeIsAtBeginning }
{}

/// The context `_ .#.` holds at the end of a word alone.
pub fn edge_is_at_end()
    ensures { EdgeIsAtEnd }
{}

/// `~~A` has just the words of A, of those over the alphabet.
pub fn not_is_undone()
    ensures { NotIsUndone }
{}

/// `A.i.i` relates what A relates.
pub fn inverse_is_undone()
    ensures { InverseIsUndone }
{}

/// `A .o. B` of languages relates each word of both to itself.
pub fn composition_is_both()
    ensures { CompositionIsBoth }
{}

/// `a:b .o. b:c` relates a to c and nothing else.
pub fn crosses_compose()
    ensures { CrossesCompose }
{}

/// `\a` over the alphabet a, b is b.
pub fn other_symbol()
    ensures { OtherSymbol }
{}

/// `a => b _` has the word ba, and not ab.
pub fn only_behind()
    ensures { OnlyBehind }
{}

/// `A -> B` relates what `[~$A [A .x. B]]* ~$A` relates, where the empty word isn't in A.
pub fn rules_replace_all()
    ensures { RulesReplaceAll }
{}

/// Optional rules relate every word over the alphabet to itself.
pub fn optional_rules_leave_all()
    ensures { OptionalRulesLeaveAll }
{}

/// Rules of which no centre occurs in a word relate it to itself alone.
pub fn rules_leave_others()
    ensures { RulesLeaveOthers }
{}

/// Where neither part has the empty word, the inverse of optional rules `A (->) B` in contexts is `B (->) A` in the same contexts, read on the
/// other sides: of `||` it is `\/`, of `//` it is `\\`.
pub fn optional_rules_turn()
    ensures { OptionalRulesTurn }
{}

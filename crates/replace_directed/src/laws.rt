ghost use Rattle.replace_directed.specs.Laws.{DirectedAgreesOnSymbols, DirectedAgreesWithoutOverlap, DirectedIsRewriting, DirectedLeavesOthers};

/// A directed rule relates a word without a match to itself alone.
pub fn directed_leaves_others()
    ensures { DirectedLeavesOthers }
{}

/// What a directed rule relates, the obligatory rule without a direction does.
pub fn directed_is_rewriting()
    ensures { DirectedIsRewriting }
{}

/// Where no matches overlap, a directed rule relates a word to what the obligatory rule without a direction does.
pub fn directed_agrees_without_overlap()
    ensures { DirectedAgreesWithoutOverlap }
{}

/// Where each centre is one symbol, all ways relate the same, and what the obligatory rule without a direction does.
pub fn directed_agrees_on_symbols()
    ensures { DirectedAgreesOnSymbols }
{}

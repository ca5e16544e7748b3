ghost use Rattle.fsm_base.specs.Longest.{CutTakesLongest, OnlyCutTakesLongest, OnlyCutStops, CutJoins};

/// The law of the cut, which [`crate::Alphabet::tokens`] computes. It does nothing when it runs.
///
/// The cut of a text into symbols that are not empty takes, from left to right, the longest symbol
/// that begins at each place, and nothing else does; its symbols joined are the text. Where there is
/// no cut, it names the first character, counted from 1, at which no symbol begins (Beesley and
/// Karttunen, Finite State Morphology, 2003).
pub fn cut_takes_longest()
    ensures takes { CutTakesLongest }
    ensures only_word { OnlyCutTakesLongest }
    ensures only_place { OnlyCutStops }
    ensures joins { CutJoins }
{}

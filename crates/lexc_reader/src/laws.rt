ghost use Rattle.lexc_reader.specs.Sound.{LexiconsAreSound};

/// In the lexicons of a text each symbol on a side is a text that isn't empty, each flag has a value or none as its kind asks, and
/// each entry goes on in a lexicon that was declared. Names are declared once, and `Root` is one of them.
pub fn lexicons_are_sound()
    ensures { LexiconsAreSound }
{}

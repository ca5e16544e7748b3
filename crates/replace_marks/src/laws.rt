ghost use Rattle.replace_marks.specs.Written.{WrittenKeepsSides, WrittenIsOverMarks};

/// The two sides of pieces written in marks are the two words of the pieces.
pub fn written_keeps_sides()
    ensures { WrittenKeepsSides }
{}

/// Pieces of some symbols and mappings are written in the marks of these.
pub fn written_is_over_marks()
    ensures { WrittenIsOverMarks }
{}

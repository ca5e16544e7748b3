ghost use Rattle.std.specs.Prelude.{◌↔◌, IsTrue, Some};
ghost use Rattle.lane_meaning.specs.Lanes.{IsMark};

use reply_meaning::without_return;

/// Whether the line is the mark `---`. A carriage return at its end is dropped.
pub fn is_mark(line: &[u8]) -> bool
    ensures { IsTrue result ↔ IsMark (Some line.now) }
{
    without_return(line) == b"---".as_slice()
}

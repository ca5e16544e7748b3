ghost use Rattle.std.specs.Prelude.{◌≤◌, None, Some, codes, length};
ghost use Rattle.fsm_io.specs.Lines.{most_line};
ghost use Rattle.lane_session.specs.Sending.{bytes_of};
ghost use Rattle.reply_meaning.specs.Replies.{headed};

use lane_meaning::Replying;
use publish_board::Release;
use reply_text::Head;
use std::alloc::Global;

/// The reply to a line.
#[derive(Drop)]
pub enum Reply {
    /// These bytes.
    Bytes(Vec<u8>),
    /// The reply of one word, at the number of the value. It takes no memory.
    Short(Head),
}

/// A published value that lines are answered at.
pub trait Answers: Release + Replying {
    /// The reply to a line that isn't long.
    fn answer(&self, alloc: Global, line: &[u8]) -> Reply
        requires short { length line.now ≤ most_line }
        ensures { Self.replies self.now (Some line.now) (bytes_of (Self.number_of self.now) result) };

    /// `V long` is a reply to a long line.
    ghost long_is_reply: { (value : Self) → Self.replies value None (headed (Self.number_of value) (codes "long")) };
}

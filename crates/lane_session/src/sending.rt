ghost use Rattle.std.specs.Prelude.{◌≤◌, None, Some, length};
ghost use Rattle.fsm_io.specs.Causes.{HasCause};
ghost use Rattle.fsm_io.specs.Lines.{most_line};
ghost use Rattle.fsm_io.specs.Sinks.{WritesAll};
ghost use Rattle.reply_meaning.specs.Replies.{headed};
ghost use Rattle.reply_text.specs.Heads.{head_word};
ghost use Rattle.lane_session.specs.Sending.{Sends};

use crate::answers::{Answers, Reply};
use fsm_io::{Failed, Sink, write_all};
use reply_text::{Head, short};
use std::alloc::Global;

/// Writes a reply of one word.
fn send_short<K: Sink>(number: u64, head: Head, sink: &mut K) -> Result<(), Failed>
    ensures bytes { WritesAll (K.held sink.old) (K.held sink.new) (headed number (head_word head)) result }
    ensures cause { HasCause (K.faults sink.old) (K.faults sink.new) result }
{
    let mut buf = [0u8; 64];
    let end = short(number, head, &mut buf);
    write_all(sink, &buf[..end])
}

/// Writes the reply to a line that isn't long, at a value.
pub fn send_reply<V: Answers, K: Sink>(
    alloc: Global,
    value: &V,
    line: &[u8],
    sink: &mut K,
) -> Result<(), Failed>
    requires { length line.now ≤ most_line }
    ensures sends { Sends (V.replies value.now (Some line.now)) (K.held sink.old) (K.held sink.new) result }
    ensures cause { HasCause (K.faults sink.old) (K.faults sink.new) result }
{
    match value.answer(alloc, line) {
        Reply::Bytes(bytes) => write_all(sink, &bytes),
        Reply::Short(head) => send_short(value.number(), head, sink),
    }
}

/// Writes the reply to a long line, at a value.
pub fn send_long<V: Answers, K: Sink>(value: &V, sink: &mut K) -> Result<(), Failed>
    ensures sends { Sends (V.replies value.now None) (K.held sink.old) (K.held sink.new) result }
    ensures cause { HasCause (K.faults sink.old) (K.faults sink.new) result }
{
    send_short(value.number(), Head::Long, sink)
}

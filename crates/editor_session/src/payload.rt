ghost use Rattle.std.specs.Prelude.{◌≡◌, ◌≢◌, ◌≤◌, ℕ, List, Option, Some};
ghost use Rattle.fsm_io.specs.Causes.{Rose};
ghost use Rattle.fsm_io.specs.Reading.{size_of};
ghost use Rattle.editor_session.specs.Reading.{HasHeard, HasTaken, HasTakenOne};

use fsm_io::{LineEvent, Lines, Source};
use reply_meaning::Ending;
use std::alloc::Global;

/// What came of the lines that follow a command.
#[derive(Drop)]
pub enum Payload {
    /// The first bytes of the lines, each with its newline.
    Kept(Vec<u8>),
    /// All lines were read, and there was no memory for them.
    Unkept,
    /// The input ended before the last of them.
    Cut,
    /// Before the last of them the input stopped in another way.
    Stopped(Ending),
}

/// Appends the next line, as far as there are at most `most` bytes, or says why there is none. Nothing is appended once memory
/// has lacked.
fn take_one<I: Source>(
    lines: &mut Lines,
    input: &mut I,
    bytes: &mut Vec<u8>,
    most: usize,
    lacks: &mut bool,
) -> Option<Payload>
    ensures taken { (left0 : Option (List ℕ)) (budget : ℕ) (heard : List (List ℕ)) → HasHeard left0 (I.left input.old) budget lines.old heard
        → HasTakenOne left0 (I.left input.new) budget lines.new heard most bytes.old.items bytes.new.items lacks.old lacks.new result }
    ensures later { size_of lines.new ≤ size_of lines.old }
    ensures unwritten { result ≢ Some (Payload.Stopped Ending.WriteFailed) }
    ensures failed { result ≡ Some (Payload.Stopped Ending.ReadFailed) → Rose (I.faults input.old) (I.faults input.new) }
    ensures later_input { I.faults input.old ≤ I.faults input.new }
{
    match lines.take_line(input, bytes, most) {
        Ok(LineEvent::Line) => None,
        Ok(LineEvent::Long) => None,
        Ok(LineEvent::End) => Some(Payload::Cut),
        Ok(LineEvent::Failed) => Some(Payload::Stopped(Ending::ReadFailed)),
        Ok(LineEvent::Over) => Some(Payload::Stopped(Ending::Spent)),
        Err(_) => {
            *lacks = true;
            None
        }
    }
}

/// Takes the next `count` lines, and keeps the first `most` bytes of them.
pub fn take_lines<I: Source>(
    alloc: Global,
    lines: &mut Lines,
    input: &mut I,
    count: u32,
    most: usize,
) -> Payload
    ensures taken { (left0 : Option (List ℕ)) (budget : ℕ) (heard : List (List ℕ)) → HasHeard left0 (I.left input.old) budget lines.old heard
        → HasTaken left0 (I.left input.new) budget lines.new heard count most result }
    ensures later { size_of lines.new ≤ size_of lines.old }
    ensures unwritten { result ≢ Payload.Stopped Ending.WriteFailed }
    ensures failed { result ≡ Payload.Stopped Ending.ReadFailed → Rose (I.faults input.old) (I.faults input.new) }
    ensures later_input { I.faults input.old ≤ I.faults input.new }
{
    let mut bytes = Vec::new(alloc);
    let mut lacks = false;
    'lines: for _taken in 0..count {
        if let Some(stop) = take_one(lines, input, &mut bytes, most, &mut lacks) {
            return stop;
        }
    }
    if lacks {
        Payload::Unkept
    } else {
        Payload::Kept(bytes)
    }
}

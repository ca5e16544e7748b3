ghost use Rattle.std.specs.Prelude.{◌≡◌, ◌<◌, ◌≤◌, ℕ, List, Option, None, Some, IfNone, is_ok, if◌then◌else◌, length};
ghost use Rattle.fsm_io.specs.Causes.{HasCause, Rose};
ghost use Rattle.fsm_io.specs.Lines.{most_line};
ghost use Rattle.fsm_io.specs.Reading.{size_of};
ghost use Rattle.lane_meaning.specs.Lanes.{HasLane};
ghost use Rattle.lane_session.specs.Running.{HasStopped, IsBeside, IsRest, TurnsBehind, TurnsBeside};
ghost use Rattle.lane_session.specs.Sending.{AnswersLine, EntersOnce};

use crate::answers::Answers;
use crate::sending::{send_long, send_reply};
use fsm_io::{Failed, LineEvent, Lines, Sink, Source};
use lane_meaning::is_mark;
use publish_board::Seat;
use reply_meaning::Ending;
use std::alloc::Global;

/// Why a lane stopped beside the publishing.
#[derive(Clone, Copy, Debug, PartialEq, Eq)]
pub enum Stop {
    /// Its mark came, and the rest is answered at the last value.
    Marked,
    /// Its answering ended.
    Ended(Ending),
}

/// How a reply that was written, or wasn't, stops a lane.
fn stop_of(sent: Result<(), Failed>) -> Option<Stop>
    ensures { result ≡ (if is_ok sent then None else Some (Stop.Ended Ending.WriteFailed)) }
{
    match sent {
        Ok(()) => None,
        Err(Failed) => Some(Stop::Ended(Ending::WriteFailed)),
    }
}

/// How it ends a lane behind its mark.
fn ending_of(sent: Result<(), Failed>) -> Option<Ending>
    ensures { result ≡ (if is_ok sent then None else Some Ending.WriteFailed) }
{
    match sent {
        Ok(()) => None,
        Err(Failed) => Some(Ending::WriteFailed),
    }
}

/// The seat takes up what is published.
fn take_up<V: Answers>(seat: &mut Seat<V>)
    ensures { EntersOnce seat.old seat.new }
{
    seat.enter();
}

/// A lane's session.
#[derive(Drop)]
pub struct LaneSession<V: Answers> {
    /// What takes up the published values.
    pub seat: Seat<V>,
    /// The lines of the input.
    pub lines: Lines,
}

impl<V: Answers> LaneSession<V> {
    /// Answers the line that was read, at the value that the seat has after it entered. The mark has no reply, and stops the lane.
    fn answer_line<K: Sink>(&mut self, alloc: Global, sink: &mut K) -> Option<Stop>
        requires short { length self.old.lines.text ≤ most_line }
        ensures answers { AnswersLine V.replies self.old.seat self.new.seat (Some self.old.lines.text) (K.held sink.old) (K.held sink.new) result }
        ensures board { self.new.seat.board ≡ self.old.seat.board }
        ensures lines { self.new.lines ≡ self.old.lines }
        ensures write { result ≡ Some (Stop.Ended Ending.WriteFailed) → Rose (K.faults sink.old) (K.faults sink.new) }
        ensures later_output { K.faults sink.old ≤ K.faults sink.new }
    {
        let line = self.lines.text();
        if is_mark(line) {
            return Some(Stop::Marked);
        }
        take_up(&mut self.seat);
        stop_of(send_reply(alloc, self.seat.value(), line, sink))
    }

    /// The same of a long line.
    fn answer_long<K: Sink>(&mut self, sink: &mut K) -> Option<Stop>
        ensures answers { AnswersLine V.replies self.old.seat self.new.seat None (K.held sink.old) (K.held sink.new) result }
        ensures board { self.new.seat.board ≡ self.old.seat.board }
        ensures lines { self.new.lines ≡ self.old.lines }
        ensures write { result ≡ Some (Stop.Ended Ending.WriteFailed) → Rose (K.faults sink.old) (K.faults sink.new) }
        ensures later_output { K.faults sink.old ≤ K.faults sink.new }
    {
        take_up(&mut self.seat);
        stop_of(send_long(self.seat.value(), sink))
    }

    /// Answers the next line, or says why the lane stops.
    fn turn_beside<S: Source, K: Sink>(
        &mut self,
        alloc: Global,
        source: &mut S,
        sink: &mut K,
    ) -> Option<Stop>
        ensures turns { (budget : ℕ) (left0 held0 : Option (List ℕ)) → IsBeside V.replies self.old.seat budget left0 (S.left source.old) held0 (K.held sink.old) self.old.lines
            → TurnsBeside V.replies self.new.seat budget left0 (S.left source.new) held0 (K.held sink.new) self.new.lines result }
        ensures board { self.new.seat.board ≡ self.old.seat.board }
        ensures progress { IfNone result (size_of self.new.lines < size_of self.old.lines) }
        ensures read { result ≡ Some (Stop.Ended Ending.ReadFailed) → Rose (S.faults source.old) (S.faults source.new) }
        ensures write { result ≡ Some (Stop.Ended Ending.WriteFailed) → Rose (K.faults sink.old) (K.faults sink.new) }
        ensures later_input { S.faults source.old ≤ S.faults source.new }
        ensures later_output { K.faults sink.old ≤ K.faults sink.new }
    {
        match self.lines.next(source) {
            LineEvent::Line => self.answer_line(alloc, sink),
            LineEvent::Long => self.answer_long(sink),
            LineEvent::End => Some(Stop::Ended(Ending::Finished)),
            LineEvent::Failed => Some(Stop::Ended(Ending::ReadFailed)),
            LineEvent::Over => Some(Stop::Ended(Ending::Spent)),
        }
    }

    /// Answers the lines up to the mark, or up to the end where there is none. For each of them the seat enters once, and it is
    /// answered at the value that the seat has then. Each reply is written before the next line is read.
    pub fn answer_beside<S: Source, K: Sink>(
        &mut self,
        alloc: Global,
        source: &mut S,
        sink: &mut K,
    ) -> Stop
        ensures stopped { (budget : ℕ) (left0 held0 : Option (List ℕ)) → IsBeside V.replies self.old.seat budget left0 (S.left source.old) held0 (K.held sink.old) self.old.lines
            → HasStopped V.replies self.new.seat budget left0 (S.left source.new) held0 (K.held sink.new) self.new.lines result }
        ensures board { self.new.seat.board ≡ self.old.seat.board }
        ensures read { result ≡ Stop.Ended Ending.ReadFailed → Rose (S.faults source.old) (S.faults source.new) }
        ensures write { result ≡ Stop.Ended Ending.WriteFailed → Rose (K.faults sink.old) (K.faults sink.new) }
        ensures later_input { S.faults source.old ≤ S.faults source.new }
        ensures later_output { K.faults sink.old ≤ K.faults sink.new }
    {
        'lines: loop {
            if let Some(stop) = self.turn_beside(alloc, source, sink) {
                return stop;
            }
        }
    }

    /// Answers the next line behind the mark, or says how the answering ended.
    fn turn_behind<S: Source, K: Sink>(
        &mut self,
        alloc: Global,
        source: &mut S,
        sink: &mut K,
    ) -> Option<Ending>
        ensures turns { (budget : ℕ) (left0 held0 : Option (List ℕ)) → IsRest V.replies self.old.seat budget left0 (S.left source.old) held0 (K.held sink.old) self.old.lines
            → TurnsBehind V.replies self.old.seat budget left0 (S.left source.new) held0 (K.held sink.new) self.new.lines result }
        ensures seat { self.new.seat ≡ self.old.seat }
        ensures progress { IfNone result (size_of self.new.lines < size_of self.old.lines) }
        ensures read { result ≡ Some Ending.ReadFailed → Rose (S.faults source.old) (S.faults source.new) }
        ensures write { result ≡ Some Ending.WriteFailed → Rose (K.faults sink.old) (K.faults sink.new) }
        ensures later_input { S.faults source.old ≤ S.faults source.new }
        ensures later_output { K.faults sink.old ≤ K.faults sink.new }
    {
        match self.lines.next(source) {
            LineEvent::Line => ending_of(send_reply(
                alloc,
                self.seat.value(),
                self.lines.text(),
                sink,
            )),
            LineEvent::Long => ending_of(send_long(self.seat.value(), sink)),
            LineEvent::End => Some(Ending::Finished),
            LineEvent::Failed => Some(Ending::ReadFailed),
            LineEvent::Over => Some(Ending::Spent),
        }
    }

    /// Answers the lines behind the mark, at the value that the seat has.
    pub fn answer_rest<S: Source, K: Sink>(
        &mut self,
        alloc: Global,
        source: &mut S,
        sink: &mut K,
    ) -> Ending
        ensures answered { (budget : ℕ) (left0 held0 : Option (List ℕ)) → IsRest V.replies self.old.seat budget left0 (S.left source.old) held0 (K.held sink.old) self.old.lines
            → HasLane V.replies self.old.seat.values self.old.seat.entered budget left0 (S.left source.new) held0 (K.held sink.new) result }
        ensures seat { self.new.seat ≡ self.old.seat }
        ensures read { result ≡ Ending.ReadFailed → Rose (S.faults source.old) (S.faults source.new) }
        ensures write { result ≡ Ending.WriteFailed → Rose (K.faults sink.old) (K.faults sink.new) }
        ensures later_input { S.faults source.old ≤ S.faults source.new }
        ensures later_output { K.faults sink.old ≤ K.faults sink.new }
    {
        'lines: loop {
            if let Some(ending) = self.turn_behind(alloc, source, sink) {
                return ending;
            }
        }
    }
}

ghost use Rattle.std.specs.Prelude.{◌≡◌, ◌<◌, ◌≤◌, ℕ, [], All, List, Option, Some, None, IfNone, IfSome, OnOk, is_ok, if◌then◌else◌};
ghost use Rattle.fsm_io.specs.Buffers.{most_gathered};
ghost use Rattle.fsm_io.specs.Causes.{HasCause, Rose};
ghost use Rattle.fsm_io.specs.Reading.{at_start, size_of};
ghost use Rattle.fsm_io.specs.Sinks.{Gathers};
ghost use Rattle.reply_meaning.specs.Transcripts.{HasAnswered};
ghost use Rattle.fsm_program.specs.Foreseen.{IsForeseen};
ghost use Rattle.fsm_program.specs.Steps.{steps};
ghost use Rattle.fsm_program.specs.Running.{MayRead, Sofar, Turns, flushed, most_taken};

use crate::ahead::{Foreseen, replies_ahead};
use crate::look_up::LookUp;
use fsm_io::{Failed, LineEvent, Lines, Outbox, Sink, Source};
use reply_meaning::Ending;
use std::alloc::Global;
use std::thread::Threads;

/// Whether a reply was written or gathered, or how that ends the answering.
fn ending_of(sent: Result<(), Failed>) -> Option<Ending>
    ensures { result ≡ (if is_ok sent then None else Some Ending.WriteFailed) }
{
    match sent {
        Ok(()) => None,
        Err(Failed) => Some(Ending::WriteFailed),
    }
}

/// A session of look-ups over an input and an output.
#[derive(Drop)]
pub struct Session {
    /// What the lines are looked up in.
    pub look_up: LookUp,
    /// The lines of the input.
    pub lines: Lines,
    /// The replies that aren't written yet.
    pub outbox: Outbox,
}

impl Session {
    /// Writes the replies that are gathered where the next line needs a read, so that they are seen
    /// before the input is waited for.
    fn write_before_read<O: Sink>(&mut self, output: &mut O) -> Result<(), Failed>
        ensures bytes { Gathers (O.held output.old) (O.held output.new) self.old.outbox [] self.new.outbox result }
        ensures ready { OnOk result (MayRead self.new.lines self.new.outbox) }
        ensures same { self.new.look_up ≡ self.old.look_up }
        ensures lines { self.new.lines ≡ self.old.lines }
        ensures cause { HasCause (O.faults output.old) (O.faults output.new) result }
    {
        if self.lines.is_ready() {
            Ok(())
        } else {
            self.outbox.flush(output)
        }
    }

    /// Reads a line and gathers its reply, which is the foreseen one where that is this line's, or says how the answering ended.
    fn answer_line<I: Source, O: Sink>(
        &mut self,
        alloc: Global,
        foreseen: Option<&Foreseen>,
        input: &mut I,
        output: &mut O,
    ) -> Option<Ending>
        requires may { MayRead self.old.lines self.old.outbox }
        requires foreseen { IfSome foreseen (λ one. IsForeseen self.old.look_up one.now) }
        ensures turns { (budget : ℕ) (left0 held0 : Option (List ℕ))
            → Sofar (steps self.old.look_up) tt budget left0 (I.left input.old) held0 (O.held output.old) self.old.lines self.old.outbox
            → Turns (steps self.old.look_up) tt budget left0 (I.left input.new) held0 (O.held output.new) self.new.lines self.new.outbox result }
        ensures same { self.new.look_up ≡ self.old.look_up }
        ensures progress { IfNone result (size_of self.new.lines < size_of self.old.lines) }
        ensures read { result ≡ Some Ending.ReadFailed → Rose (I.faults input.old) (I.faults input.new) }
        ensures write { result ≡ Some Ending.WriteFailed → Rose (O.faults output.old) (O.faults output.new) }
        ensures later_input { I.faults input.old ≤ I.faults input.new }
        ensures later_output { O.faults output.old ≤ O.faults output.new }
    {
        match self.lines.next(input) {
            LineEvent::Line => ending_of(
                self.look_up.reply(alloc, foreseen, self.lines.text(), &mut self.outbox, output),
            ),
            LineEvent::Long => ending_of(self.look_up.reply_long(&mut self.outbox, output)),
            LineEvent::End => Some(Ending::Finished),
            LineEvent::Failed => Some(Ending::ReadFailed),
            LineEvent::Over => Some(Ending::Spent),
        }
    }

    /// Answers the next line, after what is gathered was written where that line needs a read. After a failed write the
    /// input isn't read.
    fn turn<I: Source, O: Sink>(
        &mut self,
        alloc: Global,
        foreseen: Option<&Foreseen>,
        input: &mut I,
        output: &mut O,
    ) -> Option<Ending>
        requires { IfSome foreseen (λ one. IsForeseen self.old.look_up one.now) }
        ensures turns { (budget : ℕ) (left0 held0 : Option (List ℕ))
            → Sofar (steps self.old.look_up) tt budget left0 (I.left input.old) held0 (O.held output.old) self.old.lines self.old.outbox
            → Turns (steps self.old.look_up) tt budget left0 (I.left input.new) held0 (O.held output.new) self.new.lines self.new.outbox result }
        ensures same { self.new.look_up ≡ self.old.look_up }
        ensures progress { IfNone result (size_of self.new.lines < size_of self.old.lines) }
        ensures read { result ≡ Some Ending.ReadFailed → Rose (I.faults input.old) (I.faults input.new) }
        ensures write { result ≡ Some Ending.WriteFailed → Rose (O.faults output.old) (O.faults output.new) }
        ensures later_input { I.faults input.old ≤ I.faults input.new }
        ensures later_output { O.faults output.old ≤ O.faults output.new }
    {
        match self.write_before_read(output) {
            Ok(()) => self.answer_line(alloc, foreseen, input, output),
            Err(Failed) => Some(Ending::WriteFailed),
        }
    }

    /// Answers one line after another, each of which has a foreseen reply or none.
    fn turns<I: Source, O: Sink>(
        &mut self,
        alloc: Global,
        lines: &[Option<Foreseen>],
        input: &mut I,
        output: &mut O,
    ) -> Option<Ending>
        requires { All (λ line. IfSome line (IsForeseen self.old.look_up)) lines.now }
        ensures turns { (budget : ℕ) (left0 held0 : Option (List ℕ))
            → Sofar (steps self.old.look_up) tt budget left0 (I.left input.old) held0 (O.held output.old) self.old.lines self.old.outbox
            → Turns (steps self.old.look_up) tt budget left0 (I.left input.new) held0 (O.held output.new) self.new.lines self.new.outbox result }
        ensures same { self.new.look_up ≡ self.old.look_up }
        ensures progress { IfNone result (size_of self.new.lines ≤ size_of self.old.lines) }
        ensures read { result ≡ Some Ending.ReadFailed → Rose (I.faults input.old) (I.faults input.new) }
        ensures write { result ≡ Some Ending.WriteFailed → Rose (O.faults output.old) (O.faults output.new) }
        ensures later_input { I.faults input.old ≤ I.faults input.new }
        ensures later_output { O.faults output.old ≤ O.faults output.new }
    {
        'lines: for line in lines {
            if let Some(ending) = self.turn(alloc, line.as_ref(), input, output) {
                return Some(ending);
            }
        }
        None
    }

    /// Answers the next line, and with it those that were read already: their replies are made together.
    fn turns_ahead<R: Threads + Sync, I: Source, O: Sink>(
        &mut self,
        rt: &R,
        alloc: Global,
        input: &mut I,
        output: &mut O,
    ) -> Option<Ending>
        ensures turns { (budget : ℕ) (left0 held0 : Option (List ℕ))
            → Sofar (steps self.old.look_up) tt budget left0 (I.left input.old) held0 (O.held output.old) self.old.lines self.old.outbox
            → Turns (steps self.old.look_up) tt budget left0 (I.left input.new) held0 (O.held output.new) self.new.lines self.new.outbox result }
        ensures same { self.new.look_up ≡ self.old.look_up }
        ensures progress { IfNone result (size_of self.new.lines < size_of self.old.lines) }
        ensures read { result ≡ Some Ending.ReadFailed → Rose (I.faults input.old) (I.faults input.new) }
        ensures write { result ≡ Some Ending.WriteFailed → Rose (O.faults output.old) (O.faults output.new) }
        ensures later_input { I.faults input.old ≤ I.faults input.new }
        ensures later_output { O.faults output.old ≤ O.faults output.new }
    {
        // Where there is no memory for them together, each is answered in its turn.
        let Ok(lines) = replies_ahead(rt, alloc, &self.look_up, self.lines.ahead()) else {
            return self.turn(alloc, None, input, output);
        };
        let Some((first, others)) = lines.split_first() else {
            return self.turn(alloc, None, input, output);
        };
        match self.turn(alloc, first.as_ref(), input, output) {
            None => self.turns(alloc, others, input, output),
            ending => ending,
        }
    }

    /// Writes what is still gathered, however the answering ended. A failed write goes before that.
    fn finish<O: Sink>(&mut self, ending: Ending, output: &mut O) -> Ending
        ensures failed { ending ≡ Ending.WriteFailed → (result ≡ Ending.WriteFailed) × (output.new ≡ output.old) }
        ensures written { (result ≡ Ending.WriteFailed → ⊥) → (result ≡ ending) × (self.new.outbox ≡ []) }
        ensures bytes { (ending ≡ Ending.WriteFailed → ⊥) → Gathers (O.held output.old) (O.held output.new) self.old.outbox [] self.new.outbox (flushed result) }
        ensures write { (ending ≡ Ending.WriteFailed → ⊥) → result ≡ Ending.WriteFailed → Rose (O.faults output.old) (O.faults output.new) }
        ensures same { self.new.lines ≡ self.old.lines }
        ensures later { O.faults output.old ≤ O.faults output.new }
    {
        match ending {
            Ending::WriteFailed => Ending::WriteFailed,
            ending => match self.outbox.flush(output) {
                Ok(()) => ending,
                Err(Failed) => Ending::WriteFailed,
            },
        }
    }

    /// Answers all lines of the input, each by its reply, in their order. The replies are gathered while
    /// whole lines were read already, made together where these are many, and written before the next read and at the end.
    pub fn answer_all<R: Threads + Sync, I: Source, O: Sink>(
        mut self,
        rt: &R,
        alloc: Global,
        input: &mut I,
        output: &mut O,
    ) -> Ending
        requires start { self.lines ≡ at_start most_taken }
        requires empty { self.outbox ≡ [] }
        ensures answered { HasAnswered (steps self.look_up) tt most_taken most_gathered (I.left input.old) (I.left input.new) (O.held output.old) (O.held output.new) result }
        ensures read { result ≡ Ending.ReadFailed → Rose (I.faults input.old) (I.faults input.new) }
        ensures write { result ≡ Ending.WriteFailed → Rose (O.faults output.old) (O.faults output.new) }
        ensures later_input { I.faults input.old ≤ I.faults input.new }
        ensures later_output { O.faults output.old ≤ O.faults output.new }
    {
        'lines: loop {
            if let Some(ending) = self.turns_ahead(rt, alloc, input, output) {
                return self.finish(ending, output);
            }
        }
    }
}

ghost use Rattle.std.specs.Prelude.{◌≡◌, ◌↔◌, ℕ, ◌≤◌, List, [], ◌++◌, Option, IfOk, IsTrue, Contains, MatchOption, length, take, drop, ◌∷◌, ◌+◌, ◌<◌, if◌then◌else◌, true, false, Ok};
ghost use Rattle.fsm_io.specs.Buffers.{most_ahead};
ghost use Rattle.fsm_io.specs.Causes.{Rose};
ghost use Rattle.fsm_io.specs.Gather.{Moves, Gathered, IsNewline, event_of};
ghost use Rattle.fsm_io.specs.Lines.{IsWithinLine};
ghost use Rattle.fsm_io.specs.Reading.{HasTold, IsLineEvent, NextEvent, at_start, told_by};
ghost use Rattle.fsm_io.specs.Taking.{GatheredInto, MovesInto, NextInto, PutsNext, TakesLine};

use crate::buffer::Buffer;
use crate::held::Held;
use crate::source::{Failed, Source};
use memchr::memchr;
use std::alloc::{AllocError, Global};
use std::marker::Model;

/// The most bytes of a line that is told by itself, without its newline.
pub const MOST_LINE: usize = 4096;

/// How many bytes of a line are kept: enough to see that it is long.
const KEPT: usize = MOST_LINE + 1;

/// What comes next in a source of lines.
#[derive(Clone, Copy, Debug, PartialEq, Eq)]
pub enum LineEvent {
    /// A line of at most [`MOST_LINE`] bytes, which [`Lines::text`] gives.
    Line,
    /// A line of more bytes.
    Long,
    /// The source has ended, and no line is left.
    End,
    /// The source failed.
    Failed,
    /// The budget of bytes was taken, and what was taken settles no line.
    Over,
}

/// How the bytes of a line came to their end.
#[derive(Clone, Copy)]
enum Step {
    /// A newline came.
    Settled,
    /// The source has ended.
    Ended,
    /// The source failed.
    Failed,
    /// The budget was taken.
    Over,
}

impl Step {
    ghost use Rattle.fsm_io.specs.Gather.{is_told, is_ended};

    /// Whether the bytes are a line then, or the end.
    fn is_told(self) -> bool
        ensures { result ≡ is_told self }
    {
        matches!(self, Step::Settled | Step::Ended)
    }

    fn is_ended(self) -> bool
        ensures { result ≡ is_ended self }
    {
        matches!(self, Step::Ended)
    }
}

/// Reads the lines of a source, within a budget of bytes. A line ends at its newline or at the end of
/// the source, which settles a last line that isn't empty. Of a line no more than 4,097 bytes are kept,
/// however long it is.
#[derive(Drop)]
pub struct Lines {
    /// What was read and not yet used.
    held: Held,
    /// What is kept of a line.
    line: Buffer,
    /// How many bytes may still be read.
    budget: u64,
    /// Whether `line` is a line that was told. If not, the next event goes on with it.
    told: bool,
    /// Whether the source has ended; then nothing is held and no line is begun.
    ended: bool,
}

impl Model for Lines {
    ghost use Rattle.std.specs.Prelude.{◌≡◌, ◌≤◌, true, [], length, if◌then◌else◌};
    ghost use Rattle.fsm_io.specs.Buffers.{most_ahead};
    ghost use Rattle.fsm_io.specs.Gather.{most_kept};
    ghost use Rattle.fsm_io.specs.Reading.{LinesView};

    ghost Value = { LinesView };

    ghost view = { λ l. record { begun = (if l.told then [] else l.line.held); ahead = l.held; text = l.line.held; budget = l.budget; ended = l.ended } };

    ghost invariant = { λ l. (l.line.room ≡ most_kept) × (length l.line.held ≤ l.line.room) × (l.ended ≡ true → ((if l.told then [] else l.line.held) ≡ []) × (l.held ≡ [])) × (length l.held ≤ most_ahead) };
}

impl Lines {
    /// A reader at the start of a source, from which it takes at most `budget` bytes. It takes memory
    /// for its buffers here and none later.
    pub fn open(alloc: Global, budget: u64) -> Result<Lines, AllocError>
        ensures start { IfOk result (λ lines. lines ≡ at_start budget) }
        ensures told { IfOk result (λ lines. (left : Option (List ℕ)) → HasTold left left budget lines []) }
    {
        Ok(Lines {
            held: Held::new(alloc)?,
            line: Buffer::new(alloc, KEPT)?,
            budget,
            told: false,
            ended: false,
        })
    }

    /// The next event of the source's lines. After a failure the same line goes on.
    pub fn next<S: Source>(&mut self, source: &mut S) -> LineEvent
        ensures next { NextEvent (S.left source.old) (S.left source.new) self.old self.new result }

        // What was told so far of the lines of all bytes taken, and this event, are what is told now.
        ensures told { (left : Option (List ℕ)) (budget : ℕ) (lines : List (Option (List ℕ))) → HasTold left (S.left source.old) budget self.old lines
            → HasTold left (S.left source.new) budget self.new (lines ++ told_by result self.new.text) }

        // No more than one read gave is ahead.
        ensures few { length self.new.ahead ≤ most_ahead }

        // Where a whole line is ahead, the source isn't read.
        ensures ready { Contains self.old.ahead 10 → IsLineEvent result × (source.new ≡ source.old) }

        // Nor is it once the budget was taken or the source has ended.
        ensures spent { self.old.budget ≡ 0 → source.new ≡ source.old }
        ensures ended { self.old.ended ≡ true → source.new ≡ source.old }

        ensures failed { result ≡ LineEvent.Failed → Rose (S.faults source.old) (S.faults source.new) }
        ensures later { S.faults source.old ≤ S.faults source.new }
    {
        self.advance(source)
    }

    /// Appends the next line with a newline to the caller's bytes, as far as there are at most `keep`, however long the line is:
    /// a long one is a [`LineEvent::Line`] too. After a failure the same line goes on, behind what was appended of it.
    ///
    /// # Errors
    ///
    /// Where there was no memory for the line; then it was read to its end, and a front of it was appended.
    pub fn take_line<S: Source>(
        &mut self,
        source: &mut S,
        into: &mut Vec<u8>,
        keep: usize,
    ) -> Result<LineEvent, AllocError>
        ensures taken { TakesLine (S.left source.old) (S.left source.new) self.old self.new keep into.old.items into.new.items result }
        ensures few { length self.new.ahead ≤ most_ahead }
        ensures spent { self.old.budget ≡ 0 → source.new ≡ source.old }
        ensures ended { self.old.ended ≡ true → source.new ≡ source.old }
        ensures failed { result ≡ Ok LineEvent.Failed → Rose (S.faults source.old) (S.faults source.new) }
        ensures later { S.faults source.old ≤ S.faults source.new }
    {
        let mut lacks = false;
        let event = self.advance_into(source, into, keep, &mut lacks);
        if !tells_line(event) {
            return Ok(event);
        }
        put(into, keep, b"\n", &mut lacks);
        if lacks {
            return Err(AllocError);
        }
        Ok(LineEvent::Line)
    }

    /// Whether a whole line is ahead, so that the next event is that line and needs no read.
    pub fn is_ready(&self) -> bool
        ensures { IsTrue result ↔ Contains self.now.ahead 10 }
    {
        has_newline(self.held.as_slice())
    }

    /// The bytes that were read of the source and of which no line was told: whole lines, and the front of one.
    pub fn ahead(&self) -> &[u8]
        ensures { result.now ≡ self.now.ahead }
    {
        self.held.as_slice()
    }

    /// The last line, where the last event was [`LineEvent::Line`].
    pub fn text(&self) -> &[u8]
        ensures { result.now ≡ self.now.text }
    {
        self.line.as_slice()
    }

    fn advance<S: Source>(&mut self, source: &mut S) -> LineEvent
        ensures next { NextEvent (S.left source.old) (S.left source.new) self.old self.new result }
        ensures few { length self.new.ahead ≤ most_ahead }
        ensures ready { Contains self.old.ahead 10 → IsLineEvent result × (source.new ≡ source.old) }
        ensures spent { self.old.budget ≡ 0 → source.new ≡ source.old }
        ensures ended { self.old.ended ≡ true → source.new ≡ source.old }
        ensures failed { result ≡ LineEvent.Failed → Rose (S.faults source.old) (S.faults source.new) }
        ensures later { S.faults source.old ≤ S.faults source.new }
    {
        if self.ended {
            return LineEvent::End;
        }
        begin(&mut self.line, self.told);
        let step = gather(&mut self.held, &mut self.line, &mut self.budget, source);
        self.told = step.is_told();
        self.ended = step.is_ended();
        event_after(step, self.line.as_slice())
    }

    /// The next event, whose bytes are also put behind the caller's.
    fn advance_into<S: Source>(
        &mut self,
        source: &mut S,
        into: &mut Vec<u8>,
        keep: usize,
        lacks: &mut bool,
    ) -> LineEvent
        requires { lacks.old ≡ false }
        ensures next { NextInto (S.left source.old) (S.left source.new) self.old self.new keep into.old.items into.new.items lacks.new result }
        ensures few { length self.new.ahead ≤ most_ahead }
        ensures spent { self.old.budget ≡ 0 → source.new ≡ source.old }
        ensures ended { self.old.ended ≡ true → source.new ≡ source.old }
        ensures failed { result ≡ LineEvent.Failed → Rose (S.faults source.old) (S.faults source.new) }
        ensures later { S.faults source.old ≤ S.faults source.new }
    {
        if self.ended {
            return LineEvent::End;
        }
        begin(&mut self.line, self.told);
        let step = gather_into(
            &mut self.held,
            &mut self.line,
            &mut self.budget,
            source,
            into,
            keep,
            lacks,
        );
        self.told = step.is_told();
        self.ended = step.is_ended();
        event_after(step, self.line.as_slice())
    }
}

/// Whether an event tells a line.
fn tells_line(event: LineEvent) -> bool
    ensures { IsTrue result ↔ IsLineEvent event }
{
    matches!(event, LineEvent::Line | LineEvent::Long)
}

/// Lets go of a line that was told.
fn begin(line: &mut Buffer, told: bool)
    ensures { line.new ≡ record line.old { held = (if told then [] else line.old.held) } }
{
    if told {
        line.clear();
    }
}

fn event_after(step: Step, line: &[u8]) -> LineEvent
    ensures { result ≡ event_of step line.now }
{
    match step {
        Step::Failed => LineEvent::Failed,
        Step::Over => LineEvent::Over,
        Step::Ended if line.is_empty() => LineEvent::End,
        Step::Settled | Step::Ended if line.len() <= MOST_LINE => LineEvent::Line,
        Step::Settled | Step::Ended => LineEvent::Long,
    }
}

/// Moves bytes to the line up to a newline, from those held and then from the source.
fn gather<S: Source>(held: &mut Held, line: &mut Buffer, budget: &mut u64, source: &mut S) -> Step
    requires room { length line.old.held ≤ line.old.room }
    requires few { length held.old ≤ most_ahead }
    ensures few { length held.new ≤ most_ahead }
    ensures gathered { Gathered (S.left source.old) (S.left source.new) budget.old budget.new line.old line.new held.old held.new result }
    ensures ready { Contains held.old 10 → (result ≡ Step.Settled) × (source.new ≡ source.old) }
    ensures spent { budget.old ≡ 0 → source.new ≡ source.old }
    ensures failed { result ≡ Step.Failed → Rose (S.faults source.old) (S.faults source.new) }
    ensures later { S.faults source.old ≤ S.faults source.new }
{
    'reads: while !take_held(held, line) {
        if *budget == 0 {
            return Step::Over;
        }
        match held.refill(source, *budget) {
            Err(Failed) => return Step::Failed,
            Ok(0) => return Step::Ended,
            Ok(count) => *budget -= count as u64,
        }
    }
    Step::Settled
}

/// The same, where the bytes are also put behind the caller's.
fn gather_into<S: Source>(
    held: &mut Held,
    line: &mut Buffer,
    budget: &mut u64,
    source: &mut S,
    into: &mut Vec<u8>,
    keep: usize,
    lacks: &mut bool,
) -> Step
    requires room { length line.old.held ≤ line.old.room }
    requires few { length held.old ≤ most_ahead }
    requires there { lacks.old ≡ false }
    ensures few { length held.new ≤ most_ahead }
    ensures gathered { GatheredInto (S.left source.old) (S.left source.new) budget.old budget.new line.old line.new held.old held.new keep into.old.items into.new.items lacks.new result }
    ensures spent { budget.old ≡ 0 → source.new ≡ source.old }
    ensures failed { result ≡ Step.Failed → Rose (S.faults source.old) (S.faults source.new) }
    ensures later { S.faults source.old ≤ S.faults source.new }
{
    'reads: while !take_held_into(held, line, into, keep, lacks) {
        if *budget == 0 {
            return Step::Over;
        }
        match held.refill(source, *budget) {
            Err(Failed) => return Step::Failed,
            Ok(0) => return Step::Ended,
            Ok(count) => *budget -= count as u64,
        }
    }
    Step::Settled
}

/// Moves the held bytes to the line, up to a newline, which is let go of. Whether there was one.
fn take_held(held: &mut Held, line: &mut Buffer) -> bool
    ensures moves { Moves held.old held.new line.old line.new result }
    ensures newline { IsTrue result ↔ Contains held.old 10 }
{
    let bytes = held.as_slice();
    match newline_of(bytes) {
        Some(at) => {
            line.fill(&bytes[..at]);
            held.skip(at + 1);
            true
        }
        None => {
            line.fill(bytes);
            held.clear();
            false
        }
    }
}

/// The same, where the bytes are also put behind the caller's.
fn take_held_into(
    held: &mut Held,
    line: &mut Buffer,
    into: &mut Vec<u8>,
    keep: usize,
    lacks: &mut bool,
) -> bool
    ensures { MovesInto held.old held.new line.old line.new keep into.old.items into.new.items lacks.old lacks.new result }
{
    let bytes = held.as_slice();
    match newline_of(bytes) {
        Some(at) => {
            line.fill(&bytes[..at]);
            put(into, keep, &bytes[..at], lacks);
            held.skip(at + 1);
            true
        }
        None => {
            line.fill(bytes);
            put(into, keep, bytes, lacks);
            held.clear();
            false
        }
    }
}

/// Puts bytes behind the caller's, as far as there are at most `keep`, unless memory lacks.
fn put(into: &mut Vec<u8>, keep: usize, bytes: &[u8], lacks: &mut bool)
    ensures { PutsNext keep into.old.items bytes.now into.new.items lacks.old lacks.new }
{
    if *lacks {
        return;
    }
    let count = bytes.len().min(keep.saturating_sub(into.len()));
    *lacks = into.extend_from_slice(&bytes[..count]).is_err();
}

/// The place of the first newline.
fn newline_of(bytes: &[u8]) -> Option<usize>
    ensures { MatchOption result (IsWithinLine bytes.now) (IsNewline bytes.now) }
{
    memchr(b'\n', bytes)
}

/// Whether a newline is among the bytes.
fn has_newline(bytes: &[u8]) -> bool
    ensures { IsTrue result ↔ Contains bytes.now 10 }
{
    memchr(b'\n', bytes).is_some()
}

ghost use Rattle.std.specs.Prelude.{◌≡◌, None, Some};
ghost use Rattle.lane_session.specs.declared.session.Stop.{Stop};
ghost use Rattle.lane_session.specs.Lanes.{GoesBehind, GoesBeside, Learns, Work as WorkView, ending_in, entered_by};

use crate::answers::Answers;
use crate::work::Work;
use fsm_io::{Lines, Sink, Source};
use publish_board::{Note, Seat};
use reply_meaning::Ending;
use std::alloc::Global;
use std::marker::Model;
use std::sync::Wait;

/// A lane: lines of an input that are answered on an output. It keeps its seat when it has been answered. Contracts see what is left
/// of its input and held by its output, how often each failed, and what it works with.
#[derive(Drop)]
pub struct Lane<S: Source + Drop, K: Sink + Drop, V: Answers> {
    /// Its input.
    pub source: S,
    /// Its output.
    pub sink: K,
    /// What it works with, where it was given a seat.
    work: Option<Work<V>>,
}

impl<S: Source + Drop, K: Sink + Drop, V: Answers> Model for Lane<S, K, V> {
    ghost use Rattle.lane_session.specs.Lanes.{LaneView};

    ghost Value = { LaneView V };

    ghost view = { λ l. record { left = S.left l.source; held = K.held l.sink; reads = S.faults l.source; writes = K.faults l.sink; work = l.work } };
}

impl<S: Source + Drop, K: Sink + Drop, V: Answers> Lane<S, K, V> {
    /// A lane that was given no seat.
    pub fn new(source: S, sink: K) -> Lane<S, K, V>
        ensures { result ≡ record { left = S.left source; held = K.held sink; reads = S.faults source; writes = K.faults sink; work = None } }
    {
        Lane {
            source,
            sink,
            work: None,
        }
    }

    /// How often the seat entered that it was given last; 0 where it was given none.
    pub fn entered(&self) -> u64
        ensures { result ≡ entered_by self.now.work }
    {
        match &self.work {
            Some(work) => work.entered(),
            None => 0,
        }
    }

    /// Gives it a seat and the lines of its input, of which nothing was answered.
    pub fn sit(&mut self, seat: Seat<V>, lines: Lines)
        ensures { self.new ≡ record self.old { work = Some (record { seat = seat; reader = lines; stop = None }) } }
    {
        self.work = Some(Work::new(seat, lines));
    }

    /// Answers the lines up to the mark, or all where there is none. A lane without a seat stays as it is.
    pub fn answer_beside(&mut self, alloc: Global)
        ensures { (before : WorkView V) → self.old.work ≡ Some before → GoesBeside V.replies before self.old self.new }
    {
        if let Some(work) = &mut self.work {
            work.answer_beside(alloc, &mut self.source, &mut self.sink);
        }
    }

    /// Its seat takes up the last value.
    pub fn learn<R: Wait>(&mut self, rt: &R, note: Note<'_, V>)
        requires board { (before : WorkView V) → self.old.work ≡ Some before → note.board ≡ before.seat.board }
        ensures { (before : WorkView V) → self.old.work ≡ Some before → Learns note.entry.values before self.old self.new }
    {
        if let Some(work) = &mut self.work {
            work.learn(rt, note);
        }
    }

    /// Answers the lines behind the mark, where it stopped there.
    pub fn answer_rest(&mut self, alloc: Global)
        ensures { (before : WorkView V) (stop : Stop) → self.old.work ≡ Some before → before.stop ≡ Some stop → GoesBehind V.replies before self.old self.new stop }
    {
        if let Some(work) = &mut self.work {
            work.answer_rest(alloc, &mut self.source, &mut self.sink);
        }
    }

    /// How its answering ended, if it did.
    pub fn ending(&self) -> Option<Ending>
        ensures { result ≡ ending_in self.now.work }
    {
        match &self.work {
            Some(work) => work.ending(),
            None => None,
        }
    }
}

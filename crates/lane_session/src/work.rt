ghost use Rattle.std.specs.Prelude.{◌≡◌, ◌↔◌, IsTrue, None, Some};
ghost use mathlib.Core.List.{IsPrefix};
ghost use Rattle.lane_session.specs.declared.session.Stop.{Stop};
ghost use Rattle.lane_session.specs.Lanes.{GoesBehind, GoesBeside, ending_of, working};

use crate::answers::Answers;
use crate::session::{LaneSession, Stop};
use fsm_io::{Lines, Sink, Source};
use publish_board::{Note, Seat};
use reply_meaning::Ending;
use std::alloc::Global;
use std::marker::Model;
use std::sync::Wait;

/// Whether a lane stopped at its mark.
fn is_marked(stop: Option<Stop>) -> bool
    ensures { IsTrue result ↔ (stop ≡ Some Stop.Marked) }
{
    matches!(stop, Some(Stop::Marked))
}

/// What a lane works with. Contracts see its seat, its lines, and why it stopped, if it did.
#[derive(Drop)]
pub struct Work<V: Answers> {
    /// The lane's seat at the board, and the lines of its input that are read.
    session: LaneSession<V>,
    /// Why it stopped, if it did.
    stop: Option<Stop>,
}

impl<V: Answers> Model for Work<V> {
    ghost use Rattle.lane_session.specs.Lanes.{Work as WorkView};

    ghost Value = { WorkView V };

    ghost view = { λ w. record { seat = w.session.seat; reader = w.session.lines; stop = w.stop } };
}

impl<V: Answers> Work<V> {
    /// A seat and lines of which nothing was answered.
    pub fn new(seat: Seat<V>, lines: Lines) -> Work<V>
        ensures { result ≡ record { seat = seat; reader = lines; stop = None } }
    {
        Work {
            session: LaneSession { seat, lines },
            stop: None,
        }
    }

    /// How often the seat entered.
    pub fn entered(&self) -> u64
        ensures { result ≡ self.now.seat.entered }
    {
        self.session.seat.entered()
    }

    /// How the answering ended, if it did.
    pub fn ending(&self) -> Option<Ending>
        ensures { result ≡ ending_of self.now.stop }
    {
        match self.stop {
            Some(Stop::Ended(ending)) => Some(ending),
            _ => None,
        }
    }

    /// Answers the lines up to the mark, or all where there is none.
    pub fn answer_beside<S: Source, K: Sink>(&mut self, alloc: Global, source: &mut S, sink: &mut K)
        ensures { GoesBeside V.replies self.old (working (S.left source.old) (K.held sink.old) (S.faults source.old) (K.faults sink.old) self.old) (working (S.left source.new) (K.held sink.new) (S.faults source.new) (K.faults sink.new) self.new) }
    {
        let stop = self.session.answer_beside(alloc, source, sink);
        self.stop = Some(stop);
    }

    /// The seat takes up the last value.
    pub fn learn<R: Wait>(&mut self, rt: &R, note: Note<'_, V>)
        requires board { note.board ≡ self.old.seat.board }
        ensures values { IsPrefix self.old.seat.values note.entry.values }
        ensures learnt { self.new ≡ record self.old { seat = record self.old.seat { values = note.entry.values } } }
    {
        self.session.seat.learn(rt, note);
    }

    /// Answers the lines behind the mark, where it stopped there.
    pub fn answer_rest<S: Source, K: Sink>(&mut self, alloc: Global, source: &mut S, sink: &mut K)
        ensures { (stop : Stop) → self.old.stop ≡ Some stop → GoesBehind V.replies self.old (working (S.left source.old) (K.held sink.old) (S.faults source.old) (K.faults sink.old) self.old) (working (S.left source.new) (K.held sink.new) (S.faults source.new) (K.faults sink.new) self.new) stop }
    {
        if !is_marked(self.stop) {
            return;
        }
        let ending = self.session.answer_rest(alloc, source, sink);
        self.stop = Some(Stop::Ended(ending));
    }
}

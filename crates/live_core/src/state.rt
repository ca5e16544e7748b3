ghost use Rattle.std.specs.Prelude.{◌≡◌, IfOk, OnErr};
ghost use Rattle.live_core.specs.declared.event.Event.TheVariants.{Publish, Enter, Learn};
ghost use Rattle.live_core.specs.Machine.{after, after_all, number_of, opened, outcome, outcomes, value_of};

use crate::event::{Event, Outcome};
use std::alloc::{AllocError, Global};
use std::marker::Model;

/// The published values, numbered from 1, and the number that each reader has seen.
#[derive(Drop)]
pub struct LiveState<V: Copy> {
    /// The value with the number 1.
    first: V,
    /// The others, in order.
    later: Vec<V>,
    /// The number that each reader has seen.
    seen: Vec<u64>,
    /// How many values may be published after the first.
    room: u32,
}

impl<V: Copy> Model for LiveState<V> {
    ghost use Rattle.std.specs.Prelude.{◌≤◌, length, vec_capacity};
    ghost use Rattle.live_core.specs.Machine.{Live};

    ghost Value = { Live V };

    ghost view = { λ s. record { first = s.first; later = s.later.items; seen = s.seen.items; room = s.room } };

    ghost invariant = { λ s. (length s.later.items ≤ s.room) × (s.room ≤ vec_capacity s.later) };
}

impl<V: Copy> LiveState<V> {
    /// The state in which `first` is published and each of `readers` readers has seen it. Up to `room` values may be
    /// published after it. It takes all memory that steps need.
    pub fn open(
        alloc: Global,
        first: V,
        readers: u32,
        room: u32,
    ) -> Result<LiveState<V>, AllocError>
        ensures { IfOk result (λ state. state ≡ opened first readers room) }
    {
        let later = Vec::with_capacity(alloc, room as usize)?;
        let seen = Vec::from_elem(alloc, 1u64, readers as usize)?;
        Ok(LiveState {
            first,
            later,
            seen,
            room,
        })
    }

    /// What comes of one event. It takes no memory.
    ///
    /// - `Publish` gives `Published` with the number of the new value, or `NoRoom` where `room` values were published after
    ///   the first.
    /// - `Enter` gives `Answered` with the last published value and its number, which the reader has then seen, or
    ///   `NoReader` where the reader isn't below the number of readers.
    /// - `Learn` gives `Learnt`, and the reader has then seen at least `upto`; or `NoReader` as above; or else `NotYet` where
    ///   `upto` is above the last number.
    ///
    /// `NoReader`, `NotYet` and `NoRoom` change nothing.
    pub fn step(&mut self, event: Event<V>) -> Outcome<V>
        ensures state { self.new ≡ after self.old event }
        ensures outcome { result ≡ outcome self.old event }
    {
        match event {
            Event::Publish { next } => self.publish(next),
            Event::Enter { reader } => self.enter(reader),
            Event::Learn { reader, upto } => self.learn(reader, upto),
        }
    }

    /// What comes of these events, one after another. It takes memory for the outcomes before the first event, and
    /// where there is none nothing changes.
    pub fn run(&mut self, alloc: Global, events: &[Event<V>]) -> Result<Vec<Outcome<V>>, AllocError>
        ensures state { IfOk result (λ _. self.new ≡ after_all self.old events.now) }
        ensures outcomes { IfOk result (λ found. found.items ≡ outcomes self.old events.now) }
        ensures memory { OnErr result (self.new ≡ self.old) }
    {
        let mut outcomes = Vec::with_capacity(alloc, events.len())?;
        'events: for event in events {
            let outcome = self.step(*event);
            // The capacity suffices, so that this takes no memory and does not fail.
            let _ = outcomes.push(outcome);
        }
        Ok(outcomes)
    }

    /// The number of the last published value.
    fn number(&self) -> u64
        ensures { result ≡ number_of self.now }
    {
        self.later.len() as u64 + 1
    }

    /// The last published value.
    fn value(&self) -> V
        ensures { result ≡ value_of self.now }
    {
        self.later.last().copied().unwrap_or(self.first)
    }

    fn publish(&mut self, next: V) -> Outcome<V>
        ensures state { self.new ≡ after self.old (Publish next) }
        ensures outcome { result ≡ outcome self.old (Publish next) }
    {
        if self.later.len() >= self.room as usize {
            return Outcome::NoRoom;
        }
        // The capacity suffices, so that this takes no memory and does not fail.
        let _ = self.later.push(next);
        Outcome::Published {
            number: self.number(),
        }
    }

    fn enter(&mut self, reader: u32) -> Outcome<V>
        ensures state { self.new ≡ after self.old (Enter reader) }
        ensures outcome { result ≡ outcome self.old (Enter reader) }
    {
        let number = self.number();
        let value = self.value();
        let Some(seen) = self.seen.get_mut(reader as usize) else {
            return Outcome::NoReader;
        };
        *seen = number;
        Outcome::Answered { number, value }
    }

    fn learn(&mut self, reader: u32, upto: u64) -> Outcome<V>
        ensures state { self.new ≡ after self.old (Learn reader upto) }
        ensures outcome { result ≡ outcome self.old (Learn reader upto) }
    {
        let last = self.number();
        let Some(seen) = self.seen.get_mut(reader as usize) else {
            return Outcome::NoReader;
        };
        if upto > last {
            return Outcome::NotYet;
        }
        *seen = upto.max(*seen);
        Outcome::Learnt
    }
}

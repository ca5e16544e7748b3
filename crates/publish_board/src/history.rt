ghost use Rattle.std.specs.Prelude.{◌≡◌, ◌+◌, ◌<◌, ◌^◌, ◌++◌, ◌∷◌, [], length, IfSome};
ghost use Rattle.std.specs.Bool.{OnTrue};
ghost use mathlib.Core.List.{IsPrefix};
ghost use Rattle.publish_board.specs.Histories.{IsNumbered};
ghost use Rattle.publish_board.specs.Published.{published};

use crate::law::{Add, Entry, Law, Nothing};
use crate::release::Release;
use logbook::{Offer, Seen, Start, Word};
use std::marker::Model;

/// What adds to a history. Contracts see which board's history it is.
#[derive(Drop)]
pub struct History<V: Release> {
    /// The length of the history.
    word: Word<Entry<V>, u64, Law>,
}

impl<V: Release> Model for History<V> {
    ghost use Rattle.std.specs.Prelude.{◌≡◌};
    ghost use Rattle.publish_board.specs.Published.{Board};
    ghost use Rattle.publish_board.specs.HistoryRule.{length_of};

    ghost Value = { Board };

    ghost view = { λ h. h.word.book };

    ghost invariant = { λ h. h.word ≡ length_of h.word.book };
}

/// Values with which a history began, as they were seen at some time. Contracts see them, and whose history it is.
#[derive(Drop)]
pub struct Beginning<V: Release> {
    /// How many values there are.
    count: u64,
    seen: Seen<Entry<V>, u64, Law>,
}

impl<V: Release> Model for Beginning<V> {
    ghost use Rattle.std.specs.Prelude.{◌≡◌, length};
    ghost use Rattle.publish_board.specs.Histories.{IsLegal, entries, values_of};
    ghost use Rattle.publish_board.specs.Published.{Published, published};

    ghost Value = { Published V };

    ghost view = { λ b. published b.seen.book (values_of b.seen.log) };

    ghost invariant = { λ b. (b.count ≡ length b.seen.log) × (b.seen.log ≡ entries (values_of b.seen.log)) × IsLegal V.number_of b.seen.log };
}

/// All values of a history that was closed. Contracts see them, and whose history it is.
#[derive(Drop)]
pub struct Whole<V: Release> {
    seen: Seen<Entry<V>, u64, Law>,
}

impl<V: Release> Model for Whole<V> {
    ghost use Rattle.std.specs.Prelude.{◌≡◌, ◌++◌, ◌∷◌, []};
    ghost use Rattle.publish_board.specs.declared.law.Entry.TheVariants.{Closed};
    ghost use Rattle.publish_board.specs.Histories.{entries, values_of};
    ghost use Rattle.publish_board.specs.Published.{Published, published};

    ghost Value = { Published V };

    ghost view = { λ w. published w.seen.book (values_of w.seen.log) };

    ghost invariant = { λ w. w.seen.log ≡ entries (values_of w.seen.log) ++ Closed ∷ [] };
}

impl<V: Release> History<V> {
    /// A new history, and its beginning without values.
    pub fn start() -> (History<V>, Beginning<V>)
        ensures board { result.1.board ≡ result.0 }
        ensures empty { result.1.values ≡ [] }
    {
        let (seen, mut first, _second) = Seen::open(Start::alone(), 0, 0);
        (
            History {
                word: Word::tracked(0, &mut first),
            },
            Beginning { count: 0, seen },
        )
    }

    /// Adds a value behind those of the beginning. None where the history goes on behind them already; nothing is added then.
    pub fn add(&self, seen: &Beginning<V>, next: &V) -> Option<Beginning<V>>
        requires board { seen.now.board ≡ self.now }
        requires number { V.number_of next.now ≡ length seen.now.values + 1 }
        requires room { length seen.now.values + 1 < 2 ^ 64 }
        ensures { IfSome result (λ more. more ≡ published seen.now.board (seen.now.values ++ next.now ∷ [])) }
    {
        let mut log = seen.seen.again();
        let mut offer: Offer<Entry<V>, u64, Law, Nothing> = log.plain::<Nothing, V, Add>(next);
        let mut pen = log.no_pen();
        let old = seen.count;
        let found = self
            .word
            .compare_exchange::<Add, Nothing>(old, old + 1, &mut log, &mut offer, &mut pen);
        if found == old {
            return Some(Beginning {
                count: old + 1,
                seen: log,
            });
        }
        None
    }

    /// Closes the history behind the values of the beginning. None where it goes on behind them already, or where no number is
    /// left; nothing is closed then.
    pub fn close(&self, seen: &Beginning<V>) -> Option<Whole<V>>
        requires board { seen.now.board ≡ self.now }
        ensures { IfSome result (λ whole. whole ≡ seen.now) }
    {
        if seen.count == u64::MAX {
            return None;
        }
        let mut log = seen.seen.again();
        let mut offer: Offer<Entry<V>, u64, Law, Nothing> = log.plain::<Nothing, (), Add>(&());
        let mut pen = log.no_pen();
        let old = seen.count;
        let found = self
            .word
            .compare_exchange::<Add, Nothing>(old, old + 1, &mut log, &mut offer, &mut pen);
        if found == old {
            return Some(Whole { seen: log });
        }
        None
    }
}

impl<V: Release> Beginning<V> {
    /// How many values there are. The value at each place has the place's number.
    pub fn len(&self) -> u64
        ensures length { result ≡ length self.now.values }
        ensures numbered { IsNumbered V.number_of self.now.values }
    {
        self.count
    }

    /// A copy.
    pub fn again(&self) -> Beginning<V>
        ensures { result ≡ self.now }
    {
        Beginning {
            count: self.count,
            seen: self.seen.again(),
        }
    }

    /// Whether the other one has as many values or more. Then it begins with these.
    pub fn begins(&self, other: &Beginning<V>) -> bool
        requires board { other.now.board ≡ self.now.board }
        ensures { OnTrue result (IsPrefix self.now.values other.now.values) }
    {
        let mut both = self.seen.again();
        both.learn(&other.seen);
        self.count <= other.count
    }
}

impl<V: Release> Whole<V> {
    /// It begins with each beginning of its history. At run time nothing is done.
    pub fn begins_with(&self, seen: &Beginning<V>)
        requires board { seen.now.board ≡ self.now.board }
        ensures { IsPrefix seen.now.values self.now.values }
    {
        let mut both = self.seen.again();
        both.learn(&seen.seen);
    }
}

ghost use Rattle.std.specs.Prelude.{◌≡◌, ◌+◌, ◌-◌, ◌^◌, ◌<◌, Some, length, min};
ghost use Rattle.left_right.specs.Sides.{view};
ghost use mathlib.Core.List.{IsPrefix};
ghost use Rattle.publish_board.specs.Histories.{IsNumbered};
ghost use Rattle.publish_board.specs.Boards.{EndsWith, IsEnter, IsLearn, seated};

use crate::editor::Note;
use crate::page::Page;
use crate::release::Release;
use crate::rule::PageReader;
use crate::steps::{again, look};
use core::mem::replace_with;
use std::marker::Model;
use std::sync::Wait;

/// One that takes up values, in any thread. Contracts see the values up to the one that it has, which board's they are, and
/// how often it entered.
#[derive(Drop)]
pub struct Seat<V: Release> {
    reader: PageReader<V>,
    page: Page<V>,
    entered: u64,
}

impl<V: Release> Model for Seat<V> {
    ghost use Rattle.std.specs.Prelude.{◌≡◌, ◌<◌, Some, length};
    ghost use Rattle.left_right.specs.Sides.{view as place_view};
    ghost use Rattle.publish_board.specs.Boards.{Seated, seated};

    ghost Value = { Seated V };

    ghost view = { λ s. seated s.page.board s.page.values s.entered };

    ghost invariant = { λ s. (place_view s.reader.place ≡ Some s.page.board) × (0 < length s.page.values) };
}

impl<V: Release> Seat<V> {
    pub(crate) fn of(reader: PageReader<V>, page: Page<V>) -> Seat<V>
        requires view { view reader.place ≡ Some page.board }
        requires filled { 0 < length page.values }
        ensures { result ≡ seated page.board page.values 0 }
    {
        Seat {
            reader,
            page,
            entered: 0,
        }
    }

    /// The value that the seat took up last.
    pub fn value(&self) -> &V
        ensures last { EndsWith self.now.values result.now }
        ensures number { V.number_of result.now ≡ length self.now.values }
    {
        self.page.value()
    }

    /// Its number. The values up to it have the numbers from 1 on.
    pub fn seen(&self) -> u64
        ensures length { result ≡ length self.now.values }
        ensures numbered { IsNumbered V.number_of self.now.values }
    {
        self.page.upto().len()
    }

    /// How often the seat entered, at most 2^64 - 1 times.
    pub fn entered(&self) -> u64
        ensures { result ≡ self.now.entered }
    {
        self.entered
    }

    /// Takes up what is published. It waits for nobody. The seat stays with its value where it is not let in, or where no more
    /// can share the value.
    pub fn enter(&mut self)
        ensures board { self.new.board ≡ self.old.board }
        ensures values { IsPrefix self.old.values self.new.values }
        ensures event { IsEnter self.old.values self.new.values }
        ensures entered { self.new.entered ≡ min (self.old.entered + 1) (2 ^ 64 - 1) }
    {
        self.entered = self.entered.saturating_add(1);
        let found = replace_with(&mut self.reader, (), |reader, _| look(reader));
        if let Some(page) = found {
            if self.page.upto().begins(page.upto()) {
                self.page = page;
            }
        }
    }

    /// Takes up the last value of the board. It waits as long as no more can share the value.
    pub fn learn<R: Wait>(&mut self, rt: &R, note: Note<'_, V>)
        requires board { note.board ≡ self.old.board }
        ensures values { IsPrefix self.old.values note.entry.values }
        ensures seat { self.new ≡ seated self.old.board note.entry.values self.old.entered }
        ensures event { IsLearn self.old.values self.new.values }
    {
        note.whole.begins_with(self.page.upto());
        self.page = again(rt, note.page);
    }
}

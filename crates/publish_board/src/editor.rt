ghost use Rattle.std.specs.Prelude.{◌≡◌, ◌+◌, ◌++◌, ◌∷◌, [], Some, IfOk, OnErr, length};
ghost use Rattle.std.specs.Arc.{arc_value};
ghost use Rattle.left_right.specs.Sides.{view};
ghost use Rattle.publish_board.specs.Histories.{IsNumbered};
ghost use Rattle.publish_board.specs.Published.{published};
ghost use Rattle.publish_board.specs.Boards.{IsPublish};

use crate::history::{History, Whole};
use crate::page::{Page, Sheet};
use crate::release::Release;
use crate::rule::{Law, PageWriter};
use crate::steps::show;
use core::mem::replace_with;
use crossbeam_utils::rule::Protocol;
use left_right::writer::Writer;
use std::alloc::AllocError;
use std::marker::Model;
use std::sync::{Arc, Wait};

/// The one that releases values. Contracts see those that it released, and which board it is.
pub type Editor<V> = EditorOf<V, Page<V>, Law>;

/// An [`Editor`], whose `T` and `P` are always the same.
pub struct EditorOf<V: Release, T: Sheet<V>, P: Protocol<T, Option<History<V>>>> {
    writer: Writer<T, T, Option<History<V>>, P>,
    history: History<V>,
    /// The page that is shown.
    page: Page<V>,
}

impl<V: Release, T: Sheet<V>, P: Protocol<T, Option<History<V>>>> Model for EditorOf<V, T, P> {
    ghost use Rattle.std.specs.Prelude.{◌≡◌, Some};
    ghost use Rattle.left_right.specs.Sides.{view as place_view};
    ghost use Rattle.publish_board.specs.Published.{Published};

    ghost Value = { Published V };

    ghost view = { λ e. e.page };

    ghost invariant = { λ e. (e.history ≡ e.page.board) × (T.shows e.writer.desk.shown.value ≡ e.page) × (place_view e.writer.desk.place ≡ Some e.page.board) };
}

/// An editor that releases no more. Contracts see all values of the board, and which board it is.
pub type Closed<V> = ClosedOf<V, Page<V>, Law>;

/// A [`Closed`] editor, whose `T` and `P` are always the same.
pub struct ClosedOf<V: Release, T: Sheet<V>, P: Protocol<T, Option<History<V>>>> {
    writer: Writer<T, T, Option<History<V>>, P>,
    /// The page that is shown.
    page: Page<V>,
    whole: Whole<V>,
}

impl<V: Release, T: Sheet<V>, P: Protocol<T, Option<History<V>>>> Model for ClosedOf<V, T, P> {
    ghost use Rattle.std.specs.Prelude.{◌≡◌};
    ghost use Rattle.publish_board.specs.Published.{Published};

    ghost Value = { Published V };

    ghost view = { λ e. e.page };

    ghost invariant = { λ e. e.whole ≡ e.page };
}

/// What a closed editor tells: all values of the board. Contracts see them, and which board it is.
#[derive(Drop)]
pub struct Note<'a, V: Release> {
    pub(crate) page: &'a Page<V>,
    pub(crate) whole: &'a Whole<V>,
}

impl<'a, V: Release> Model for Note<'a, V> {
    ghost use Rattle.std.specs.Prelude.{◌≡◌};
    ghost use Rattle.publish_board.specs.Published.{Published};

    ghost Value = { Published V };

    ghost view = { λ n. n.page.now };

    ghost invariant = { λ n. n.whole.now ≡ n.page.now };
}

impl<V: Release> EditorOf<V, Page<V>, Law> {
    pub(crate) fn of(writer: PageWriter<V>, history: History<V>, page: Page<V>) -> Editor<V>
        requires history { history ≡ page.board }
        requires shown { writer.desk.shown.value ≡ page }
        requires view { view writer.desk.place ≡ Some page.board }
        ensures { result ≡ page }
    {
        EditorOf {
            writer,
            history,
            page,
        }
    }

    /// The number of the value that was released last. The values have the numbers from 1 on.
    pub fn last(&self) -> u64
        ensures length { result ≡ length self.now.values }
        ensures numbered { IsNumbered V.number_of self.now.values }
    {
        self.page.upto().len()
    }

    /// Publishes the next value. It may wait for seats that are inside, and as long as memory is wanting. An error says that
    /// no more can share the value, or that the history goes on already, which no call leads to; nothing is published then.
    pub fn release<R: Wait>(&mut self, rt: &R, next: Arc<V>) -> Result<(), AllocError>
        requires number { V.number_of (arc_value next) ≡ length self.old.values + 1 }
        ensures published { IfOk result (λ _. self.new ≡ published self.old.board (self.old.values ++ arc_value next ∷ [])) }
        ensures event { IfOk result (λ _. IsPublish self.old.values (arc_value next) self.new.values) }
        ensures memory { OnErr result (self.new ≡ self.old) }
    {
        // That the value has a number is that its number fits into 64 bits.
        let _number = next.number();
        let kept = Arc::try_clone(&next)?;
        let Some(upto) = self.history.add(self.page.upto(), &next) else {
            return Err(AllocError);
        };
        let shown = Page::new(next, upto.again());
        replace_with(
            &mut self.writer,
            shown,
            |writer, page| (show(rt, writer, page), ()),
        );
        self.page = Page::new(kept, upto);
        Ok(())
    }

    /// Ends the releases. It waits as long as the history goes on behind what was released, to which no call leads.
    pub fn close<R: Wait>(self, rt: &R) -> Closed<V>
        ensures { result ≡ self }
    {
        let EditorOf {
            writer,
            history,
            page,
        } = self;
        for _ in rt.forever() {
            if let Some(whole) = history.close(page.upto()) {
                return ClosedOf {
                    writer,
                    page,
                    whole,
                };
            }
        }
        unreachable!()
    }
}

impl<V: Release> ClosedOf<V, Page<V>, Law> {
    /// The number of the last value. The values have the numbers from 1 on.
    pub fn number(&self) -> u64
        ensures length { result ≡ length self.now.values }
        ensures numbered { IsNumbered V.number_of self.now.values }
    {
        self.page.upto().len()
    }

    /// A note of all values, for a seat of this board to learn.
    pub fn note(&self) -> Note<'_, V>
        ensures { result ≡ self.now }
    {
        Note {
            page: &self.page,
            whole: &self.whole,
        }
    }

    /// Ends the board. It waits for seats that are inside. Each seat keeps the value that it has.
    pub fn end<R: Wait>(self, rt: &R) {
        let ClosedOf {
            writer,
            page: _page,
            whole: _whole,
        } = self;
        drop(writer.take(rt));
    }
}

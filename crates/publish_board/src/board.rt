ghost use Rattle.std.specs.Prelude.{◌≡◌, ◌≤◌, ◌<◌, ◌∷◌, [], Some, IfOk, All, length};
ghost use Rattle.std.specs.Arc.{arc_value};
ghost use Rattle.left_right.specs.Sides.{view};
ghost use Rattle.publish_board.specs.Boards.{seated};

use crate::editor::Editor;
use crate::history::History;
use crate::page::Page;
use crate::release::Release;
use crate::rule::PageWriter;
use crate::seat::Seat;
use crate::steps::{again, reader_of, show, writer_of};
use std::alloc::{AllocError, Global};
use std::sync::{Arc, Wait};

/// So many seats, which have the page.
fn seats_of<V: Release, R: Wait>(
    rt: &R,
    alloc: Global,
    writer: &mut PageWriter<V>,
    page: &Page<V>,
    seats: usize,
) -> Result<Vec<Seat<V>>, AllocError>
    requires view { view writer.old.desk.place ≡ Some page.now.board }
    requires filled { 0 < length page.now.values }
    ensures seats { IfOk result (λ all. (length all.items ≡ seats) × All (λ seat. seat ≡ seated page.now.board page.now.values 0) all.items) }
    ensures writer { (view writer.new.desk.place ≡ view writer.old.desk.place) × (writer.new.desk.shown ≡ writer.old.desk.shown) }
{
    let mut all = Vec::new(alloc);
    'seats: for _ in 0..seats {
        let reader = reader_of(rt, writer);
        let seat = Seat::of(reader, again(rt, page));
        all.push(seat)?;
    }
    Ok(all)
}

/// A board on which `first` is published: its editor, and so many seats, each of which has the first value. It waits as long
/// as no place is handed out for a seat, and the only refusal is want of memory.
pub fn open<V: Release, R: Wait>(
    rt: &R,
    alloc: Global,
    first: Arc<V>,
    seats: usize,
) -> Result<(Editor<V>, Vec<Seat<V>>), AllocError>
    requires number { V.number_of (arc_value first) ≡ 1 }
    requires seats { (1 ≤ seats) × (seats ≤ 16) }
    ensures editor { IfOk result (λ board. board.0.values ≡ arc_value first ∷ []) }
    ensures count { IfOk result (λ board. length board.1.items ≡ seats) }
    ensures seats { IfOk result (λ board. All (λ seat. seat ≡ seated board.0.board (arc_value first ∷ []) 0) board.1.items) }
{
    let (history, empty) = History::<V>::start();
    let Some(upto) = history.add(&empty, &first) else {
        return Err(AllocError);
    };
    let page = Page::new(first, upto);
    let writer = writer_of(alloc, again(rt, &page), again(rt, &page), seats)?;
    // The page is shown once more, since the writer then knows which board it is.
    let mut writer = show(rt, writer, again(rt, &page));
    match seats_of(rt, alloc, &mut writer, &page, seats) {
        Ok(all) => Ok((Editor::of(writer, history, page), all)),
        Err(error) => {
            drop(writer.take(rt));
            Err(error)
        }
    }
}

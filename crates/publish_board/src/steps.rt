//! The steps of a board's writer and readers.
ghost use Rattle.std.specs.Prelude.{◌≡◌, ◌∷◌, ◌++◌, ◌^◌, ◌<◌, [], None, Some, IfOk, IfSome, drop};
ghost use Rattle.left_right.specs.Sides.{view};
ghost use Rattle.publish_board.specs.Rule.{Knows};

use crate::page::Page;
use crate::release::Release;
use crate::rule::{Finds, Learns, PageReader, PageWriter, Shows, Tells};
use left_right::writer::Writer;
use std::alloc::{AllocError, Global};
use std::sync::Wait;

/// A writer that shows the page.
pub fn writer_of<V: Release>(
    alloc: Global,
    first: Page<V>,
    second: Page<V>,
    seats: usize,
) -> Result<PageWriter<V>, AllocError>
    requires seats { (0 < seats) × (seats < 2 ^ 32) }
    requires alike { first ≡ second }
    ensures { IfOk result (λ writer. writer.desk.shown.value ≡ first) }
{
    Writer::new(alloc, first, second, seats)
}

/// A copy of a page. It waits as long as no more can share the value.
pub fn again<V: Release, R: Wait>(rt: &R, page: &Page<V>) -> Page<V>
    ensures { result ≡ page.now }
{
    for _ in rt.forever() {
        if let Ok(copy) = page.again() {
            return copy;
        }
    }
    unreachable!()
}

/// Puts a page behind what is pending. It waits as long as memory is wanting.
fn queue<V: Release, R: Wait>(rt: &R, writer: PageWriter<V>, page: Page<V>) -> PageWriter<V>
    ensures desk { result.desk ≡ writer.desk }
    ensures pending { drop result.behind result.log.items ≡ drop writer.behind writer.log.items ++ page ∷ [] }
{
    let mut writer = writer;
    let mut page = page;
    for _ in rt.forever() {
        match writer.append(page) {
            Ok(()) => return writer,
            Err(back) => page = back,
        }
    }
    unreachable!()
}

/// Shows a page of the same board. It waits for readers that still take the page before the last one, and as long as memory
/// is wanting.
pub fn show<V: Release, R: Wait>(rt: &R, writer: PageWriter<V>, page: Page<V>) -> PageWriter<V>
    requires board { page.board ≡ writer.desk.shown.value.board }
    ensures shown { result.desk.shown.value ≡ page }
    ensures view { view result.desk.place ≡ Some page.board }
{
    let mut writer = queue(rt, writer, page);
    for _ in rt.forever() {
        let (next, outcome) = writer.publish_as::<Shows, R>(rt);
        match outcome {
            Ok(()) => return next,
            Err(_) => writer = next,
        }
    }
    unreachable!()
}

/// A reader of what the writer shows. It waits as long as no place is handed out.
fn new_reader<V: Release, R: Wait>(rt: &R, writer: &PageWriter<V>) -> PageReader<V>
    ensures view { view result.place ≡ None }
    ensures table { result.place.table_id ≡ writer.now.desk.place.table_id }
{
    for _ in rt.forever() {
        if let Ok(reader) = writer.factory().reader() {
            return reader;
        }
    }
    unreachable!()
}

/// A reader that knows what the writer knows. It waits as `new_reader` does.
pub fn reader_of<V: Release, R: Wait>(rt: &R, writer: &mut PageWriter<V>) -> PageReader<V>
    ensures reader { view result.place ≡ view writer.old.desk.place }
    ensures writer { (view writer.new.desk.place ≡ view writer.old.desk.place) × (writer.new.desk.shown ≡ writer.old.desk.shown) }
{
    let mut reader = new_reader(rt, writer);
    reader.learn::<Learns>(writer.tell::<Tells>());
    reader
}

/// The page that is shown. None where the reader is not let in, or where no more can share the value.
pub fn look<V: Release>(reader: PageReader<V>) -> (PageReader<V>, Option<Page<V>>)
    ensures view { view result.0.place ≡ view reader.place }
    ensures page { IfSome result.1 (λ page. Knows page.board (view reader.place)) }
{
    match reader.enter_as::<Finds>() {
        Ok(reading) => {
            let found = reading.get().again().ok();
            (reading.leave(), found)
        }
        Err(reader) => (reader, None),
    }
}

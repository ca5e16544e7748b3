//! The rule under which left_right is used: whoever knows which board's values are shown is right. A view is that board, or
//! nothing yet.
use crate::history::History;
use crate::page::Page;
use crate::release::Release;
use atomic_table::{Join, Split};
use crossbeam_utils::rule::{Outcome, Protocol};
use left_right::reader::Reader;
use left_right::writer::Writer;

/// The rule.
pub struct Law;

impl<V: Release> Protocol<Page<V>, Option<History<V>>> for Law {
    ghost use Rattle.std.specs.Prelude.{None};
    ghost use Rattle.publish_board.specs.Rule.{AllKnow};

    ghost holds = { λ page. AllKnow page.board };

    ghost first = { None };
}

/// What shows the pages of a board.
pub type PageWriter<V> = Writer<Page<V>, Page<V>, Option<History<V>>, Law>;

/// What takes the page that is shown.
pub type PageReader<V> = Reader<Page<V>, Option<History<V>>, Law>;

/// After a page is shown, the writer knows its board.
pub struct Shows;

impl<V: Release> Outcome<Page<V>, Option<History<V>>> for Shows {
    ghost use Rattle.std.specs.Prelude.{◌≡◌, Some};

    ghost then = { λ v x y w. w ≡ Some y.board };
}

/// A page that a reader finds is of the board that it knows.
pub struct Finds;

impl<V: Release> Outcome<Page<V>, Option<History<V>>> for Finds {
    ghost use Rattle.std.specs.Prelude.{◌≡◌};
    ghost use Rattle.publish_board.specs.Rule.{Knows};

    ghost then = { λ v x y w. (w ≡ v) × Knows y.board v };
}

/// The writer tells what it knows.
pub struct Tells;

impl<V: Release> Split<Option<History<V>>> for Tells {
    ghost left = { λ v. v };

    ghost right = { λ v. v };
}

/// A reader learns what it is told.
pub struct Learns;

impl<V: Release> Join<Option<History<V>>> for Learns {
    ghost use Rattle.std.specs.Prelude.{None};

    ghost both = { λ v w. w };

    ghost spent = { None };
}

ghost use Rattle.std.specs.Prelude.{◌≡◌, ◌≤◌, ℕ, All, IfOk, length};
ghost use Rattle.fsm_io.specs.Reading.{at_start};
ghost use Rattle.editor_session.specs.Seating.{AreSeated};
ghost use Rattle.project_versions.specs.Versions.{VersionView};
ghost use Rattle.publish_board.specs.Boards.{Seated};

use crate::live::Lane;
use fsm_io::{Lines, Sink, Source};
use project_versions::Version;
use publish_board::Seat;
use std::alloc::{AllocError, Global};

/// The lines of so many inputs, of which nothing was read.
pub fn lines_for(alloc: Global, count: usize, budget: u64) -> Result<Vec<Lines>, AllocError>
    ensures { IfOk result (λ all. (length all.items ≡ count) × All (λ lines. lines ≡ at_start budget) all.items) }
{
    let mut all = Vec::new(alloc);
    'inputs: for _ in 0..count {
        all.push(Lines::open(alloc, budget)?)?;
    }
    Ok(all)
}

/// Gives each lane a seat and the lines of its input. What is left of the seats is dropped.
pub fn sit_all<S: Source + Drop, K: Sink + Drop>(
    lanes: &mut [Lane<S, K>],
    mut seats: Vec<Seat<Version>>,
    mut rows: Vec<Lines>,
)
    requires seats { length lanes.old ≤ length seats.items }
    requires rows { length lanes.old ≤ length rows.items }
    ensures { (seat : Seated VersionView) (budget : ℕ) → All (λ s. s ≡ seat) seats.items → All (λ lines. lines ≡ at_start budget) rows.items → AreSeated seat budget lanes.old lanes.new }
{
    'lanes: for i in 0..lanes.len() {
        let (Some(seat), Some(lines)) = (seats.pop(), rows.pop()) else {
            unreachable!()
        };
        lanes[i].sit(seat, lines);
    }
}

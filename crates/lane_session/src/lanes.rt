//! All lanes.
ghost use Rattle.std.specs.Prelude.{◌≡◌, ◌<◌, ℕ, Some, length, slice_index_or};
ghost use Rattle.lane_session.specs.declared.session.Stop.{Stop};
ghost use Rattle.lane_session.specs.Lanes.{GoesBehind, GoesBeside, Learns, Work};

use crate::answers::Answers;
use crate::lane::Lane;
use fsm_io::{Sink, Source};
use publish_board::Closed;
use std::alloc::Global;
use std::sync::Wait;
use std::thread;
use std::thread::Threads;

/// The most lanes that have a thread of their own.
const MOST_LANES: usize = 16;

/// Answers the lines of each lane up to its mark, each lane in a thread of its own.
pub fn answer_beside<
    S: Source + Send + Drop,
    K: Sink + Send + Drop,
    V: Answers + Send + Sync,
    R: Threads + Sync,
>(rt: &R, alloc: Global, lanes: &mut [Lane<S, K, V>])
    ensures { (i : ℕ) (d : _) (before : Work V) → i < length lanes.old → (slice_index_or lanes.old i d).work ≡ Some before → GoesBeside V.replies before (slice_index_or lanes.old i d) (slice_index_or lanes.new i d) }
{
    thread::for_each_mut(rt, lanes, MOST_LANES, &|_, lane| lane.answer_beside(alloc));
}

/// The seat of a lane takes up the last value.
fn learn_one<S: Source + Drop, K: Sink + Drop, V: Answers, R: Wait>(
    rt: &R,
    closed: &Closed<V>,
    lane: &mut Lane<S, K, V>,
)
    requires board { (before : Work V) → lane.old.work ≡ Some before → before.seat.board ≡ closed.now.board }
    ensures { (before : Work V) → lane.old.work ≡ Some before → Learns closed.now.values before lane.old lane.new }
{
    lane.learn(rt, closed.note());
}

/// The seat of each lane takes up the last value.
pub fn learn_all<S: Source + Drop, K: Sink + Drop, V: Answers, R: Wait>(
    rt: &R,
    closed: &Closed<V>,
    lanes: &mut [Lane<S, K, V>],
)
    requires board { (i : ℕ) (d : _) (before : Work V) → i < length lanes.old → (slice_index_or lanes.old i d).work ≡ Some before → before.seat.board ≡ closed.now.board }
    ensures { (i : ℕ) (d : _) (before : Work V) → i < length lanes.old → (slice_index_or lanes.old i d).work ≡ Some before → Learns closed.now.values before (slice_index_or lanes.old i d) (slice_index_or lanes.new i d) }
{
    'seats: for i in 0..lanes.len() {
        learn_one(rt, closed, &mut lanes[i]);
    }
}

/// Answers the lines of each lane behind its mark, each lane in a thread of its own.
pub fn answer_rest<
    S: Source + Send + Drop,
    K: Sink + Send + Drop,
    V: Answers + Send + Sync,
    R: Threads + Sync,
>(rt: &R, alloc: Global, lanes: &mut [Lane<S, K, V>])
    ensures { (i : ℕ) (d : _) (before : Work V) (stop : Stop) → i < length lanes.old → (slice_index_or lanes.old i d).work ≡ Some before → before.stop ≡ Some stop → GoesBehind V.replies before (slice_index_or lanes.old i d) (slice_index_or lanes.new i d) stop }
{
    thread::for_each_mut(
        rt,
        lanes,
        MOST_LANES,
        &|_, lane|
            ensures { (before : Work V) (stop : Stop) → lane.entry.now.work ≡ Some before → before.stop ≡ Some stop → GoesBehind V.replies before lane.entry.now lane.exit.now stop }
        { lane.answer_rest(alloc) },
    );
}

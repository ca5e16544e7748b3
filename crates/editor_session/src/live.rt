ghost use Rattle.std.specs.Prelude.{◌≡◌, ◌≤◌, ◌∷◌, ℕ, List, Option, IfOk, OnErr, length};
ghost use Rattle.editor_session.specs.Endings.{worst};
ghost use Rattle.editor_session.specs.Live.{HasCauses, IsLive};
ghost use Rattle.project_sources.specs.Edits.{Version as Meant};
ghost use Rattle.project_versions.specs.Versions.{Stands};
ghost use Rattle.reply_meaning.specs.declared.ending.Ending.{Ending as Ended};

use crate::batches::Batch;
use crate::seating::{lines_for, sit_all};
use crate::session::{EditorSession, loaded_line};
use crate::working::work_all;
use fsm_io::{Lines, Sink, Source};
use lane_session::Lane as LaneOf;
use project_versions::Version;
use publish_board::open;
use reply_meaning::Ending;
use std::alloc::{AllocError, Global};
use std::sync::{Arc, Wait};
use std::thread::Threads;

/// A lane whose lines are looked up in versions.
pub type Lane<S, K> = LaneOf<S, K, Version>;

/// Answers the commands of the input, from this version on, and meanwhile the lines of each lane up to its mark, each lane in a thread
/// of its own. When the commands and these lines are answered, the rest of each lane is answered at the last version. At most
/// `budget` bytes are taken of each input. It may wait as an editor of publish_board does.
///
/// Returns how it ended: of the endings of the editor and of all lanes the one that goes before the others.
///
/// # Errors
///
/// Where there was no memory before anything was read or written.
pub fn serve<
    R: Threads + Wait + Sync,
    I: Source + Send,
    O: Sink + Send,
    S: Source + Send + Drop,
    K: Sink + Send + Drop,
>(
    rt: &R,
    alloc: Global,
    budget: u64,
    version: Version,
    input: &mut I,
    output: &mut O,
    lanes: &mut [Lane<S, K>],
) -> Result<Ending, AllocError>
    requires few { length lanes.old ≤ 16 }
    requires first { version.number ≡ 1 }
    ensures live { (loaded : Meant) → Stands version loaded → IfOk result (λ ended. (ending : Ended) × (endings : List Ended) × (ended ≡ worst (ending ∷ endings))
        × IsLive loaded budget (I.left input.old) (I.left input.new) (O.held output.old) (O.held output.new) ending lanes.old lanes.new endings
        × HasCauses (I.faults input.old) (I.faults input.new) (O.faults output.old) (O.faults output.new) ending) }
    ensures none { OnErr result ((input.new ≡ input.old) × (output.new ≡ output.old) × (lanes.new ≡ lanes.old)) }
    ensures count { length lanes.new ≡ length lanes.old }
{
    let line = loaded_line(alloc, &version)?;
    let version = Arc::new(alloc, version)?;
    let first = Arc::try_clone(&version)?;
    let lines = Lines::open(alloc, budget)?;
    let rows = lines_for(alloc, lanes.len(), budget)?;
    let (editor, seats) = open(rt, alloc, first, lanes.len().max(1))?;
    sit_all(lanes, seats, rows);
    let session = EditorSession {
        version,
        batch: Batch::NoBatch,
        lines,
    };
    Ok(work_all(rt, alloc, &line, editor, session, input, output, lanes))
}

ghost use Rattle.std.specs.Prelude.{◌≡◌, ◌<◌, ◌∷◌, [], ℕ, List, Some, length, slice_index_or};
ghost use Rattle.std.specs.Arc.{arc_value};
ghost use Rattle.editor_meaning.specs.Batches.{no_batch};
ghost use Rattle.editor_session.specs.Keeping.{batch_of};
ghost use Rattle.editor_session.specs.Publishing.{ArePublished, AreStanding};
ghost use Rattle.editor_session.specs.Running.{IsLoadedLine};
ghost use Rattle.editor_session.specs.Sessions.{HasEdited};
ghost use Rattle.fsm_io.specs.Reading.{at_start};
ghost use Rattle.lane_session.specs.Lanes.{GoesBeside, Work};
ghost use Rattle.editor_session.specs.Endings.{endings_in, worst};
ghost use Rattle.editor_session.specs.Live.{HasCauses, IsLive};
ghost use Rattle.editor_session.specs.Seating.{AreBegun};
ghost use Rattle.project_sources.specs.Edits.{Version as Meant};
ghost use Rattle.project_versions.specs.Looks.{RepliesAt};
ghost use Rattle.project_versions.specs.Versions.{VersionView};
ghost use Rattle.publish_board.specs.Boards.{seated};
ghost use Rattle.reply_meaning.specs.declared.ending.Ending.{Ending as Ended};

use crate::endings::worse;
use crate::live::Lane;
use crate::session::EditorSession;
use fsm_io::{Sink, Source};
use lane_session::{answer_beside, answer_rest, learn_all};
use project_versions::Version;
use publish_board::Editor;
use reply_meaning::Ending;
use std::alloc::Global;
use std::sync::Wait;
use std::thread::{Threads, join_mut};

/// Answers the commands of the input while the lines of each lane up to its mark are answered. The editor goes on in the thread of the caller, whose
/// stack the deepest source that an edit may bring needs.
fn work<
    R: Threads + Wait + Sync,
    I: Source + Send,
    O: Sink + Send,
    S: Source + Send + Drop,
    K: Sink + Send + Drop,
>(
    rt: &R,
    alloc: Global,
    line: &[u8],
    editor: &mut Editor<Version>,
    session: &mut EditorSession,
    input: &mut I,
    output: &mut O,
    lanes: &mut [Lane<S, K>],
) -> Ending
    requires start { session.old.lines ≡ at_start session.old.lines.budget }
    requires batch { batch_of session.old.batch ≡ no_batch }
    requires number { (arc_value session.old.version).number ≡ length editor.old.values }
    ensures edited { (loaded : Meant) → ArePublished editor.old.values (loaded ∷ []) (arc_value session.old.version) → IsLoadedLine loaded line.now
        → (made : List Meant) × AreStanding editor.new.values (loaded ∷ made) × HasEdited loaded (loaded ∷ made) session.old.lines.budget (I.left input.old) (I.left input.new) (O.held output.old) (O.held output.new) result }
    ensures causes { HasCauses (I.faults input.old) (I.faults input.new) (O.faults output.old) (O.faults output.new) result }
    ensures board { editor.new.board ≡ editor.old.board }
    ensures lanes { (i : ℕ) (d : _) (before : Work VersionView) → i < length lanes.old → (slice_index_or lanes.old i d).work ≡ Some before → GoesBeside RepliesAt before (slice_index_or lanes.old i d) (slice_index_or lanes.new i d) }
{
    let of_lanes = alloc;
    let ((), ending) = join_mut(
        rt,
        &mut || answer_beside(rt, of_lanes, lanes),
        &mut ||
            requires start { session.now.lines ≡ at_start session.now.lines.budget }
            requires batch { batch_of session.now.batch ≡ no_batch }
            requires number { (arc_value session.now.version).number ≡ length editor.now.values }
            ensures edited { (loaded : Meant) → ArePublished editor.entry.now.values (loaded ∷ []) (arc_value session.entry.now.version) → IsLoadedLine loaded line.entry.now
                → (made : List Meant) × AreStanding editor.exit.now.values (loaded ∷ made) × HasEdited loaded (loaded ∷ made) session.entry.now.lines.budget (I.left input.entry.now) (I.left input.exit.now) (O.held output.entry.now) (O.held output.exit.now) result }
            ensures causes { HasCauses (I.faults input.entry.now) (I.faults input.exit.now) (O.faults output.entry.now) (O.faults output.exit.now) result }
            ensures board { editor.exit.now.board ≡ editor.entry.now.board }
        { session.answer(rt, alloc, line, editor, input, output) },
    );
    ending
}

/// How a run of an editor and of lanes ended.
fn ending_of<S: Source + Drop, K: Sink + Drop>(editor: Ending, lanes: &[Lane<S, K>]) -> Ending
    ensures { result ≡ worst (editor ∷ endings_in lanes.now) }
{
    let mut ending = editor;
    'lanes: for lane in lanes {
        ending = match lane.ending() {
            Some(of_lane) => worse(ending, of_lane),
            None => ending,
        };
    }
    ending
}

/// Answers the commands of the input beside the lanes, and then what stands behind the marks of these. The editor is closed in
/// between, and each seat learns the last version.
pub fn work_all<
    R: Threads + Wait + Sync,
    I: Source + Send,
    O: Sink + Send,
    S: Source + Send + Drop,
    K: Sink + Send + Drop,
>(
    rt: &R,
    alloc: Global,
    line: &[u8],
    mut editor: Editor<Version>,
    mut session: EditorSession,
    input: &mut I,
    output: &mut O,
    lanes: &mut [Lane<S, K>],
) -> Ending
    requires start { session.lines ≡ at_start session.lines.budget }
    requires batch { batch_of session.batch ≡ no_batch }
    requires number { (arc_value session.version).number ≡ length editor.values }
    requires begun { AreBegun (seated editor.board editor.values 0) session.lines.budget lanes.old }
    ensures live { (loaded : Meant) → ArePublished editor.values (loaded ∷ []) (arc_value session.version) → IsLoadedLine loaded line.now
        → (ending : Ended) × (endings : List Ended) × (result ≡ worst (ending ∷ endings))
        × IsLive loaded session.lines.budget (I.left input.old) (I.left input.new) (O.held output.old) (O.held output.new) ending lanes.old lanes.new endings
        × HasCauses (I.faults input.old) (I.faults input.new) (O.faults output.old) (O.faults output.new) ending }
{
    let ending = work(
        rt,
        alloc,
        line,
        &mut editor,
        &mut session,
        input,
        output,
        lanes,
    );
    let closed = editor.close(rt);
    learn_all(rt, &closed, lanes);
    closed.end(rt);
    answer_rest(rt, alloc, lanes);
    ending_of(ending, lanes)
}

ghost use Rattle.std.specs.Prelude.{◌≡◌, ◌≤◌, ◌<◌, ◌∷◌, [], ℕ, List, Option, Some, None, IfOk, IfNone, MatchOption, is_ok, if◌then◌else◌, length};
ghost use Rattle.std.specs.Arc.{arc_value};
ghost use Rattle.fsm_io.specs.Causes.{Rose};
ghost use Rattle.fsm_io.specs.Reading.{at_start, size_of};
ghost use Rattle.project_sources.specs.Edits.{Version as Meant};
ghost use Rattle.project_versions.specs.Versions.{Stands};
ghost use Rattle.editor_meaning.specs.Batches.{no_batch};
ghost use Rattle.editor_session.specs.Keeping.{batch_of};
ghost use Rattle.editor_session.specs.Sessions.{HasEdited};
ghost use Rattle.editor_session.specs.Publishing.{ArePublished, AreStanding};
ghost use Rattle.editor_session.specs.Running.{IsLoadedLine, Sofar};

use crate::batches::Batch;
use crate::reply::reply_to;
use crate::request::{Next, next_request};
use fsm_io::{Failed, Lines, Sink, Source, write_all};
use project_versions::Version;
use publish_board::Editor;
use reply_meaning::Ending;
use reply_text::accepted;
use std::alloc::{AllocError, Global};
use std::sync::{Arc, Wait};

/// How a reply that was written, or wasn't, ends the answering.
fn ending_of(written: Result<(), Failed>) -> Option<Ending>
    ensures { result ≡ (if is_ok written then None else Some Ending.WriteFailed) }
{
    match written {
        Ok(()) => None,
        Err(Failed) => Some(Ending::WriteFailed),
    }
}

/// An editor's session: its present version, which is the last one that is published, its batch, and the lines of its input.
#[derive(Drop)]
pub struct EditorSession {
    /// The present version.
    pub version: Arc<Version>,
    /// The batch.
    pub batch: Batch,
    /// The lines of the input.
    pub lines: Lines,
}

impl EditorSession {
    /// Answers the next command, or says how the answering ended.
    fn turn<I: Source, O: Sink, R: Wait>(
        &mut self,
        rt: &R,
        alloc: Global,
        editor: &mut Editor<Version>,
        input: &mut I,
        output: &mut O,
    ) -> Option<Ending>
        requires number { (arc_value self.old.version).number ≡ length editor.old.values }
        ensures turns { (loaded present : Meant) (made : List Meant) (budget : ℕ) (left0 held0 : Option (List ℕ)) → Stands (arc_value self.old.version) present → ArePublished editor.old.values (loaded ∷ made) (arc_value self.old.version)
            → Sofar loaded present made (batch_of self.old.batch) budget left0 (I.left input.old) held0 (O.held output.old) self.old.lines
            → MatchOption result
            ((next : Meant) × (all : List Meant) × Stands (arc_value self.new.version) next × ArePublished editor.new.values (loaded ∷ all) (arc_value self.new.version) × Sofar loaded next all (batch_of self.new.batch) budget left0 (I.left input.new) held0 (O.held output.new) self.new.lines)
            (λ ending. (all : List Meant) × AreStanding editor.new.values (loaded ∷ all) × HasEdited loaded (loaded ∷ all) budget left0 (I.left input.new) held0 (O.held output.new) ending) }
        ensures board { editor.new.board ≡ editor.old.board }
        ensures number { (arc_value self.new.version).number ≡ length editor.new.values }
        ensures progress { IfNone result (size_of self.new.lines < size_of self.old.lines) }
        ensures read { result ≡ Some Ending.ReadFailed → Rose (I.faults input.old) (I.faults input.new) }
        ensures write { result ≡ Some Ending.WriteFailed → Rose (O.faults output.old) (O.faults output.new) }
        ensures later_input { I.faults input.old ≤ I.faults input.new }
        ensures later_output { O.faults output.old ≤ O.faults output.new }
    {
        match next_request(alloc, &mut self.lines, input) {
            Next::Asks(request) => {
                let reply = reply_to(
                    rt,
                    alloc,
                    editor,
                    &mut self.version,
                    &mut self.batch,
                    request,
                );
                ending_of(reply.write(output))
            }
            Next::Ends(ending) => Some(ending),
        }
    }

    /// Answers all commands.
    fn answer_all<I: Source, O: Sink, R: Wait>(
        &mut self,
        rt: &R,
        alloc: Global,
        editor: &mut Editor<Version>,
        input: &mut I,
        output: &mut O,
    ) -> Ending
        requires number { (arc_value self.old.version).number ≡ length editor.old.values }
        ensures edited { (loaded present : Meant) (made : List Meant) (budget : ℕ) (left0 held0 : Option (List ℕ)) → Stands (arc_value self.old.version) present → ArePublished editor.old.values (loaded ∷ made) (arc_value self.old.version)
            → Sofar loaded present made (batch_of self.old.batch) budget left0 (I.left input.old) held0 (O.held output.old) self.old.lines
            → (all : List Meant) × AreStanding editor.new.values (loaded ∷ all) × HasEdited loaded (loaded ∷ all) budget left0 (I.left input.new) held0 (O.held output.new) result }
        ensures board { editor.new.board ≡ editor.old.board }
        ensures read { result ≡ Ending.ReadFailed → Rose (I.faults input.old) (I.faults input.new) }
        ensures write { result ≡ Ending.WriteFailed → Rose (O.faults output.old) (O.faults output.new) }
        ensures later_input { I.faults input.old ≤ I.faults input.new }
        ensures later_output { O.faults output.old ≤ O.faults output.new }
    {
        'commands: loop {
            if let Some(ending) = self.turn(rt, alloc, editor, input, output) {
                return ending;
            }
        }
    }

    /// Writes the first line, which says that the version is loaded, and answers the commands of the input, one after another,
    /// until `end` or the end of the input, which drop a batch without a reply. Each accepted change is published before its reply is
    /// written, and each reply is written before the next command is read. After a failed write no further command is read. It may wait as the editor does.
    pub fn answer<I: Source, O: Sink, R: Wait>(
        &mut self,
        rt: &R,
        alloc: Global,
        line: &[u8],
        editor: &mut Editor<Version>,
        input: &mut I,
        output: &mut O,
    ) -> Ending
        requires start { self.old.lines ≡ at_start self.old.lines.budget }
        requires batch { batch_of self.old.batch ≡ no_batch }
        requires number { (arc_value self.old.version).number ≡ length editor.old.values }
        ensures edited { (loaded : Meant) → ArePublished editor.old.values (loaded ∷ []) (arc_value self.old.version) → IsLoadedLine loaded line.now
            → (made : List Meant) × AreStanding editor.new.values (loaded ∷ made) × HasEdited loaded (loaded ∷ made) self.old.lines.budget (I.left input.old) (I.left input.new) (O.held output.old) (O.held output.new) result }
        ensures board { editor.new.board ≡ editor.old.board }
        ensures read { result ≡ Ending.ReadFailed → Rose (I.faults input.old) (I.faults input.new) }
        ensures write { result ≡ Ending.WriteFailed → Rose (O.faults output.old) (O.faults output.new) }
        ensures later_input { I.faults input.old ≤ I.faults input.new }
        ensures later_output { O.faults output.old ≤ O.faults output.new }
    {
        match write_all(output, line) {
            Ok(()) => self.answer_all(rt, alloc, editor, input, output),
            Err(Failed) => Ending::WriteFailed,
        }
    }
}

/// The first line: that a version is loaded, with all its names.
pub fn loaded_line(alloc: Global, version: &Version) -> Result<Vec<u8>, AllocError>
    ensures { (loaded : Meant) → Stands version.now loaded → IfOk result (λ bytes. IsLoadedLine loaded bytes.items) }
{
    let names = version.names(alloc)?;
    accepted(alloc, version.number(), &names)
}

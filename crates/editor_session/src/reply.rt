ghost use Rattle.std.specs.Prelude.{◌≡◌, ◌≤◌, ◌+◌, ◌++◌, ◌∷◌, [], ℕ, List, Option, length, OnOk, OnErr};
ghost use Rattle.std.specs.Arc.{arc_value};
ghost use Rattle.std.specs.Option.{option_to_list, unwrap_or};
ghost use Rattle.fsm_base.specs.Normal.{nfc_of};
ghost use Rattle.fsm_io.specs.Causes.{HasCause};
ghost use Rattle.fsm_io.specs.Lines.{most_line};
ghost use Rattle.fsm_io.specs.Sinks.{WritesAll};
ghost use Rattle.project_edits.specs.Applied.{edit_of, edits_of};
ghost use Rattle.project_sources.specs.Edits.{Version as Meant};
ghost use Rattle.project_sources.specs.Faults.{rows};
ghost use Rattle.project_sources.specs.Laws.{all_readers};
ghost use Rattle.project_versions.specs.Versions.{Stands};
ghost use Rattle.publish_board.specs.Published.{published};
ghost use Rattle.editor_meaning.specs.Editing.{RepliesToChange, RepliesToCommit, RepliesToEdit};
ghost use Rattle.reply_meaning.specs.Replies.{RepliesToWord, headed, line_of};
ghost use Rattle.editor_session.specs.Keeping.{batch_of};
ghost use Rattle.editor_session.specs.Publishing.{ArePublished};
ghost use Rattle.editor_session.specs.Replying.{IsShort, RepliesToRequest, bytes_of, edit_reply, said_of};

use crate::batches::Batch;
use crate::request::Request;
use fsm_base::Text;
use fsm_io::{Failed, Sink, write_all};
use lookup_answers::Direction;
use project_edits::Edit;
use project_versions::{EditError, Version, edit, reply_to_word};
use publish_board::Editor;
use reply_text::{BatchReply, Head, accepted, batch, refused, short};
use std::alloc::{AllocError, Global};
use std::sync::{Arc, Wait};
use std::{mem, slice};

/// A reply.
#[derive(Drop)]
pub enum Reply {
    /// These bytes.
    Bytes(Vec<u8>),
    /// A reply of a batch.
    OfBatch(BatchReply),
    /// `bad`.
    Bad,
    /// `cut`.
    Cut,
    /// `full`.
    Full,
    /// `memory`.
    Memory,
    /// `V memory`, at the version of this number.
    MemoryAt(u64),
}

impl Reply {
    /// Writes the reply.
    pub fn write<O: Sink>(&self, output: &mut O) -> Result<(), Failed>
        ensures written { WritesAll (O.held output.old) (O.held output.new) (bytes_of self.now) result }
        ensures cause { HasCause (O.faults output.old) (O.faults output.new) result }
    {
        match self {
            Reply::Bytes(bytes) => write_all(output, bytes),
            Reply::OfBatch(said) => {
                let mut buf = [0u8; 64];
                let end = batch(*said, &mut buf);
                write_all(output, &buf[..end])
            }
            Reply::Bad => write_all(output, b"bad\n"),
            Reply::Cut => write_all(output, b"cut\n"),
            Reply::Full => write_all(output, b"full\n"),
            Reply::Memory => write_all(output, b"memory\n"),
            Reply::MemoryAt(number) => {
                let mut buf = [0u8; 64];
                let end = short(*number, Head::Memory, &mut buf);
                write_all(output, &buf[..end])
            }
        }
    }
}

/// The reply where a batch was begun, or that there was no memory.
fn reply_in_batch(said: Option<BatchReply>) -> Reply
    ensures { bytes_of result ≡ said_of said }
{
    match said {
        Some(said) => Reply::OfBatch(said),
        None => Reply::Memory,
    }
}

/// The reply to a change that makes no version.
fn reply_to_error(alloc: Global, error: EditError) -> Reply
    ensures { edit_reply error (bytes_of result) }
{
    match error {
        EditError::Full => Reply::Full,
        EditError::Refused(fault) => match refused(alloc, &fault) {
            Ok(bytes) => Reply::Bytes(bytes),
            Err(_) => Reply::Memory,
        },
        EditError::Memory(_) => Reply::Memory,
    }
}

/// Publishes the next version, which stands in the place of the one before then.
///
/// # Errors
///
/// Where there was no memory. Then nothing was published, and the version stays.
fn publish<R: Wait>(
    rt: &R,
    alloc: Global,
    editor: &mut Editor<Version>,
    version: &mut Arc<Version>,
    next: Version,
) -> Result<(), AllocError>
    requires number { next.number ≡ length editor.old.values + 1 }
    ensures published { OnOk result ((editor.new ≡ published editor.old.board (editor.old.values ++ next ∷ [])) × (arc_value version.new ≡ next)) }
    ensures none { OnErr result ((editor.new ≡ editor.old) × (version.new ≡ version.old)) }
{
    let next = Arc::new(alloc, next)?;
    editor.release(rt, Arc::try_clone(&next)?)?;
    *version = next;
    Ok(())
}

/// The reply to a change. The version that it makes is published, and stands in the place of the one before, which else stays.
fn reply_to_change<R: Wait>(
    rt: &R,
    alloc: Global,
    editor: &mut Editor<Version>,
    version: &mut Arc<Version>,
    change: &[Edit],
) -> Reply
    requires number { (arc_value version.old).number ≡ length editor.old.values }
    ensures replies { (present : Meant) (versions : List Meant) → Stands (arc_value version.old) present → ArePublished editor.old.values versions (arc_value version.old)
        → (new : Option Meant) × Stands (arc_value version.new) (unwrap_or new present) × ArePublished editor.new.values (versions ++ option_to_list new) (arc_value version.new)
        × RepliesToChange all_readers rows present (edits_of change.now) (bytes_of result) new }
    ensures board { editor.new.board ≡ editor.old.board }
    ensures number { (arc_value version.new).number ≡ length editor.new.values }
{
    match edit(alloc, version, change) {
        Ok(edited) => match accepted(alloc, edited.version.number(), &edited.rebuilt) {
            Ok(bytes) => match publish(rt, alloc, editor, version, edited.version) {
                Ok(()) => Reply::Bytes(bytes),
                Err(_) => Reply::Memory,
            },
            Err(_) => Reply::Memory,
        },
        Err(error) => reply_to_error(alloc, error),
    }
}

/// The reply to an edit, which outside a batch is a change by itself, and is held in one.
fn reply_to_edit<R: Wait>(
    rt: &R,
    alloc: Global,
    editor: &mut Editor<Version>,
    version: &mut Arc<Version>,
    batch: &mut Batch,
    edit: Edit,
) -> Reply
    requires number { (arc_value version.old).number ≡ length editor.old.values }
    ensures replies { (present : Meant) (versions : List Meant) → Stands (arc_value version.old) present → ArePublished editor.old.values versions (arc_value version.old)
        → (new : Option Meant) × Stands (arc_value version.new) (unwrap_or new present) × ArePublished editor.new.values (versions ++ option_to_list new) (arc_value version.new)
        × RepliesToEdit all_readers rows present (batch_of batch.old) (edit_of edit) (bytes_of result) new (batch_of batch.new) }
    ensures board { editor.new.board ≡ editor.old.board }
    ensures number { (arc_value version.new).number ≡ length editor.new.values }
{
    match batch {
        Batch::NoBatch => reply_to_change(rt, alloc, editor, version, slice::from_ref(&edit)),
        Batch::Open(_) | Batch::Lost => reply_in_batch(batch.hold(edit)),
    }
}

/// The reply to `commit`: the edits of an open batch are one change. There is no batch then.
fn reply_to_commit<R: Wait>(
    rt: &R,
    alloc: Global,
    editor: &mut Editor<Version>,
    version: &mut Arc<Version>,
    batch: &mut Batch,
) -> Reply
    requires number { (arc_value version.old).number ≡ length editor.old.values }
    ensures replies { (present : Meant) (versions : List Meant) → Stands (arc_value version.old) present → ArePublished editor.old.values versions (arc_value version.old)
        → (new : Option Meant) × Stands (arc_value version.new) (unwrap_or new present) × ArePublished editor.new.values (versions ++ option_to_list new) (arc_value version.new)
        × RepliesToCommit all_readers rows present (batch_of batch.old) (bytes_of result) new (batch_of batch.new) }
    ensures board { editor.new.board ≡ editor.old.board }
    ensures number { (arc_value version.new).number ≡ length editor.new.values }
{
    match mem::replace(batch, Batch::NoBatch) {
        Batch::NoBatch => Reply::OfBatch(BatchReply::NoBatch),
        Batch::Open(edits) => reply_to_change(rt, alloc, editor, version, &edits),
        Batch::Lost => Reply::OfBatch(BatchReply::Lost),
    }
}

/// The reply to a look-up, where want of memory is a reply too.
fn reply_to_look_up(
    alloc: Global,
    version: &Version,
    direction: Direction,
    net: &Text,
    word: &Text,
) -> Reply
    requires { length word.now ≤ most_line }
    ensures { (present : Meant) → Stands version.now present → RepliesToWord present.project direction present.number (nfc_of net.now) (nfc_of word.now) (bytes_of result) }
{
    match reply_to_word(alloc, version, direction, net.as_str(), word.as_str()) {
        Ok(bytes) => Reply::Bytes(bytes),
        Err(_) => Reply::MemoryAt(version.number()),
    }
}

/// The reply to a request at the present version, where there is this batch. The version that it makes, if it makes one, is published
/// and is the present one then.
pub fn reply_to<R: Wait>(
    rt: &R,
    alloc: Global,
    editor: &mut Editor<Version>,
    version: &mut Arc<Version>,
    batch: &mut Batch,
    request: Request,
) -> Reply
    requires short { IsShort request }
    requires number { (arc_value version.old).number ≡ length editor.old.values }
    ensures replies { (present : Meant) (versions : List Meant) → Stands (arc_value version.old) present → ArePublished editor.old.values versions (arc_value version.old)
        → (new : Option Meant) × Stands (arc_value version.new) (unwrap_or new present) × ArePublished editor.new.values (versions ++ option_to_list new) (arc_value version.new)
        × RepliesToRequest present (batch_of batch.old) request (bytes_of result) new (batch_of batch.new) }
    ensures board { editor.new.board ≡ editor.old.board }
    ensures number { (arc_value version.new).number ≡ length editor.new.values }
{
    match request {
        Request::Edit(edit) => reply_to_edit(rt, alloc, editor, version, batch, edit),
        Request::LookUp {
            direction,
            net,
            word,
        } => reply_to_look_up(alloc, version, direction, &net, &word),
        Request::Begin => Reply::OfBatch(batch.begin(alloc)),
        Request::Commit => reply_to_commit(rt, alloc, editor, version, batch),
        Request::Abandon => Reply::OfBatch(batch.abandon()),
        Request::Bad => {
            batch.spoil();
            Reply::Bad
        }
        Request::Cut => Reply::Cut,
        Request::UnkeptEdit => reply_in_batch(batch.miss()),
        Request::UnkeptLookUp => Reply::MemoryAt(version.number()),
    }
}

ghost use Rattle.std.specs.Prelude.{◌≡◌, ◌≢◌, None};
ghost use Rattle.editor_meaning.specs.Batches.{no_batch, spoilt};
ghost use Rattle.editor_meaning.specs.Editing.{RepliesToAbandon, RepliesToBegin, RepliesToEdit};
ghost use Rattle.editor_session.specs.Keeping.{batch_of};
ghost use Rattle.editor_session.specs.Replying.{said_of};
ghost use Rattle.project_edits.specs.Applied.{edit_of};
ghost use Rattle.project_sources.specs.Edits.{Edit as Meant, Version};
ghost use Rattle.project_sources.specs.Faults.{rows};
ghost use Rattle.project_sources.specs.Laws.{all_readers};
ghost use Rattle.reply_text.specs.Batches.{batch_line};

use project_edits::Edit;
use reply_text::BatchReply;
use std::alloc::Global;

/// The most edits that a batch holds.
const MOST_HELD: usize = 128;

/// The batch of a session: edits that are held until they are accepted or refused as one.
#[derive(Drop)]
pub enum Batch {
    /// There is none.
    NoBatch,
    /// A batch was begun, and holds these edits in their order.
    Open(Vec<Edit>),
    /// A batch was begun, and can't be accepted any more.
    Lost,
}

impl Batch {
    /// Begins a batch where there is none.
    pub fn begin(&mut self, alloc: Global) -> BatchReply
        ensures { RepliesToBegin (batch_of self.old) (batch_line result) (batch_of self.new) }
    {
        match self {
            Batch::NoBatch => {
                *self = Batch::Open(Vec::new(alloc));
                BatchReply::Begun
            }
            Batch::Open(_) | Batch::Lost => BatchReply::Open,
        }
    }

    /// Drops the batch.
    pub fn abandon(&mut self) -> BatchReply
        ensures { RepliesToAbandon (batch_of self.old) (batch_line result) (batch_of self.new) }
    {
        match self {
            Batch::NoBatch => BatchReply::NoBatch,
            Batch::Open(_) | Batch::Lost => {
                *self = Batch::NoBatch;
                BatchReply::Dropped
            }
        }
    }

    /// A line in no form came: an open batch is lost.
    pub fn spoil(&mut self)
        ensures { batch_of self.new ≡ spoilt (batch_of self.old) }
    {
        match self {
            Batch::Open(_) => *self = Batch::Lost,
            Batch::NoBatch | Batch::Lost => {}
        }
    }

    /// Holds an edit where a batch is open and has room for it; else an open batch is lost. Returns what is replied, or `None` where
    /// there was no memory.
    pub fn hold(&mut self, edit: Edit) -> Option<BatchReply>
        requires begun { batch_of self.old ≢ no_batch }
        ensures { (present : Version) → RepliesToEdit all_readers rows present (batch_of self.old) (edit_of edit) (said_of result) None (batch_of self.new) }
    {
        match self {
            Batch::Open(edits) if edits.len() < MOST_HELD => match edits.push(edit) {
                Ok(()) => Some(BatchReply::Held),
                Err(_) => {
                    *self = Batch::Lost;
                    None
                }
            },
            Batch::Open(_) => {
                *self = Batch::Lost;
                Some(BatchReply::Full)
            }
            Batch::NoBatch | Batch::Lost => Some(BatchReply::Lost),
        }
    }

    /// An edit came for which there was no memory: an open batch is lost. Returns what is replied, or `None` where it is that.
    pub fn miss(&mut self) -> Option<BatchReply>
        ensures { (present : Version) (edit : Meant) → RepliesToEdit all_readers rows present (batch_of self.old) edit (said_of result) None (batch_of self.new) }
    {
        match self {
            Batch::NoBatch => None,
            Batch::Open(edits) => {
                let said = if edits.len() < MOST_HELD {
                    None
                } else {
                    Some(BatchReply::Full)
                };
                *self = Batch::Lost;
                said
            }
            Batch::Lost => Some(BatchReply::Lost),
        }
    }
}

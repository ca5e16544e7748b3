ghost use Rattle.std.specs.Prelude.{◌≡◌, ◌≤◌, take, drop};
ghost use Rattle.reply_text.specs.Batches.{batch_line};

/// A reply to an edit in a batch, or to a command that begins or ends one.
#[derive(Clone, Copy, Debug, PartialEq, Eq)]
pub enum BatchReply {
    /// A batch begins.
    Begun,
    /// The edit is held.
    Held,
    /// A batch was begun before, and hasn't ended.
    Open,
    /// There is no batch.
    NoBatch,
    /// The batch is dropped.
    Dropped,
    /// The batch is lost.
    Lost,
    /// As many edits are held as may be.
    Full,
}

/// The word, with a newline behind it.
fn line_of(reply: BatchReply) -> &'static [u8]
    ensures { result.now ≡ batch_line reply }
{
    match reply {
        BatchReply::Begun => b"begun\n",
        BatchReply::Held => b"held\n",
        BatchReply::Open => b"open\n",
        BatchReply::NoBatch => b"none\n",
        BatchReply::Dropped => b"dropped\n",
        BatchReply::Lost => b"lost\n",
        BatchReply::Full => b"batch-full\n",
    }
}

/// Writes the reply to the front of `buf`: `begun`, `held`, `open`, `none`, `dropped`, `lost` or `batch-full`, and a newline.
/// Returns how many bytes it has.
pub fn batch(reply: BatchReply, buf: &mut [u8; 64]) -> usize
    ensures reply { take result buf.new ≡ batch_line reply }
    ensures rest { drop result buf.new ≡ drop result buf.old }
    ensures fits { result ≤ 64 }
{
    let line = line_of(reply);
    buf[..line.len()].copy_from_slice(line);
    line.len()
}

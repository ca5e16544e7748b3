ghost use Rattle.std.specs.Prelude.{◌≡◌, ◌≤◌, ◌∷◌, take, drop};
ghost use Rattle.reply_meaning.specs.Replies.{headed, line_of};
ghost use Rattle.reply_text.specs.Heads.{head_word};

use itoa::Buffer;

/// A reply of one word.
#[derive(Clone, Copy, Debug, PartialEq, Eq)]
pub enum Head {
    /// The line is too long.
    Long,
    /// The line isn't text, or is in no form.
    Line,
    /// There was no memory for the reply.
    Memory,
}

/// The word, with a space before it and a newline behind it.
fn rest_of(head: Head) -> &'static [u8]
    ensures { result.now ≡ 32 ∷ line_of (head_word head) }
{
    match head {
        Head::Long => b" long\n",
        Head::Line => b" line\n",
        Head::Memory => b" memory\n",
    }
}

/// Writes the reply of one word at the version `number` to the front of `buf`: `V long`, `V line` or `V memory`.
/// Returns how many bytes it has.
pub fn short(number: u64, head: Head, buf: &mut [u8; 64]) -> usize
    ensures reply { take result buf.new ≡ headed number (head_word head) }
    ensures rest { drop result buf.new ≡ drop result buf.old }
    ensures fits { result ≤ 64 }
{
    let mut digits = Buffer::new();
    let number = digits.format(number).as_bytes();
    let rest = rest_of(head);
    let end = number.len() + rest.len();
    buf[..number.len()].copy_from_slice(number);
    buf[number.len()..end].copy_from_slice(rest);
    end
}

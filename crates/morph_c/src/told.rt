ghost use Rattle.std.specs.Prelude.{◌≡◌, ◌≤◌, count_by, drop, length, IfErr, IfOk};
ghost use Rattle.morph_c.specs.Statuses.{status_of};
ghost use Rattle.morph_c.specs.Tells.{IsReply, IsSecondLine, IsTold, is_newline, no_reply, place_of};

use crate::trouble::{NO_ROOM, OK, Trouble, number_of};
use memchr::memchr;

/// How many bytes a reply has, and what they are.
#[repr(C)]
#[derive(Clone, Copy, Debug, PartialEq, Eq)]
pub struct MorphReply {
    /// How many bytes the reply has, whether or not they were written.
    pub len: usize,
    /// Where its second line begins, counted from 0; `len` where there is none.
    pub at: usize,
    /// How many lines there are from there on.
    pub count: usize,
    /// The character, counted from 1, at which no symbol begins; 0 where that isn't what is told.
    pub place: u32,
}

/// Where the second line of these bytes begins.
fn second_line(bytes: &[u8]) -> usize
    ensures place { IsSecondLine bytes.now result }
    ensures within { result ≤ length bytes.now }
{
    match memchr(b'\n', bytes) {
        Some(newline) => newline + 1,
        None => bytes.len(),
    }
}

/// How many lines end in these bytes.
fn lines_in(bytes: &[u8]) -> usize
    ensures { result ≡ count_by is_newline bytes.now }
{
    bytes.iter().filter(|byte| **byte == 10).count()
}

/// What is told of these bytes.
fn reply_of(bytes: &[u8]) -> MorphReply
    ensures { IsReply bytes.now result }
{
    let at = second_line(bytes);
    MorphReply {
        len: bytes.len(),
        at,
        count: lines_in(&bytes[at..]),
        place: 0,
    }
}

/// Writes these bytes to the front of a buffer, if it has the room.
fn write(bytes: &[u8], out: &mut [u8]) -> u32
    ensures { IsTold bytes.now out.old out.new result }
{
    let len = bytes.len();
    if out.len() < len {
        return NO_ROOM;
    }
    out[..len].copy_from_slice(bytes);
    OK
}

/// Tells an answer, or why there is none.
pub(crate) fn tell(answer: Result<Vec<u8>, Trouble>, out: &mut [u8], reply: &mut MorphReply) -> u32
    ensures told { IfOk answer (λ bytes. IsTold bytes.items out.old out.new result) }
    ensures reply { IfOk answer (λ bytes. IsReply bytes.items reply.new) }
    ensures trouble { IfErr answer (λ trouble. result ≡ status_of trouble) }
    ensures place { IfErr answer (λ trouble. reply.new ≡ no_reply trouble) }
    ensures kept { IfErr answer (λ trouble. out.new ≡ out.old) }
{
    match answer {
        Ok(bytes) => {
            *reply = reply_of(&bytes);
            write(&bytes, out)
        }
        Err(trouble) => {
            *reply = MorphReply {
                len: 0,
                at: 0,
                count: 0,
                place: place_of(&trouble),
            };
            number_of(&trouble)
        }
    }
}

/// The character at which no symbol begins, where that is the trouble, and else 0.
fn place_of(trouble: &Trouble) -> u32
    ensures { result ≡ place_of trouble.now }
{
    match trouble {
        Trouble::NoSymbol(at) => *at,
        _ => 0,
    }
}

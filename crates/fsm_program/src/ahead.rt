ghost use Rattle.std.specs.Prelude.{◌≡◌, All, IfOk, IfSome};
ghost use Rattle.fsm_program.specs.Foreseen.{IsForeseen};

use crate::look_up::LookUp;
use memchr::memchr;
use rayon::prelude::*;
use std::alloc::{AllocError, Global};
use std::thread::Threads;

/// The most lines that are looked up together.
const MOST_TOGETHER: usize = 8_192;

/// For fewer lines threads take more time than they save.
const FEWEST_TOGETHER: usize = 64;

/// The most bytes of a reply that is kept until its line's turn. A longer one is made again then, so that little memory is taken.
const MOST_KEPT: usize = 16_384;

/// A line, and the reply that was made to it before its turn.
#[derive(Debug, Drop)]
pub struct Foreseen {
    /// The line.
    pub line: Vec<u8>,
    /// The reply.
    pub reply: Vec<u8>,
}

impl Foreseen {
    /// The line with this reply, where there is memory for it.
    pub fn of(alloc: Global, line: &[u8], reply: Vec<u8>) -> Option<Foreseen>
        ensures { IfSome result (λ one. (one.line.items ≡ line.now) × (one.reply.items ≡ reply.items)) }
    {
        let line = Vec::from_slice(alloc, line).ok()?;
        Some(Foreseen { line, reply })
    }
}

/// The whole lines at the front of bytes, each without its newline.
fn whole_lines(alloc: Global, bytes: &[u8]) -> Result<Vec<&[u8]>, AllocError> {
    let mut lines = Vec::new(alloc);
    let mut rest = bytes;
    'lines: while lines.len() < MOST_TOGETHER {
        let Some(end) = memchr(b'\n', rest) else {
            break;
        };
        lines.push(&rest[..end])?;
        rest = &rest[end + 1..];
    }
    Ok(lines)
}

/// The replies to the whole lines at the front of bytes, made by as many threads as there are processors. Which lines these are is
/// found again when each has its turn, so nothing is promised of it; where they are few, none is foreseen.
pub fn replies_ahead<R: Threads + Sync>(
    rt: &R,
    alloc: Global,
    look_up: &LookUp,
    bytes: &[u8],
) -> Result<Vec<Option<Foreseen>>, AllocError>
    ensures { IfOk result (λ lines. All (λ line. IfSome line (IsForeseen look_up.now)) lines.items) }
{
    let lines = whole_lines(alloc, bytes)?;
    if lines.len() < FEWEST_TOGETHER {
        return Ok(Vec::new(alloc));
    }
    lines
        .par_iter()
        .map(
            |line: &&[u8]| -> Option<Foreseen>
                ensures { IfSome result (IsForeseen look_up.entry.now) }
            { look_up.foresee(alloc, *line, MOST_KEPT) },
        )
        .with_min_len(FEWEST_TOGETHER / 2)
        .collect(rt, alloc)
}

ghost use Rattle.std.specs.Prelude.{◌≡◌, ◌++◌, ◌∷◌, [], ◌<◌, IfOk, MatchOption, OnOk, if◌then◌else◌, length};
ghost use Rattle.fsm_io.specs.Gather.{IsNewline};
ghost use Rattle.fsm_io.specs.Lines.{IsWithinLine};
ghost use Rattle.project_manifest.specs.Manifests.{lines_of};
ghost use Rattle.project_sources.specs.Edits.{IsBadSplice};
ghost use Rattle.project_edits.specs.Lines.{AreAround, IsSplit, IsSpliced, Passes, written};

use memchr::memchr;
use std::alloc::{AllocError, Global};

/// The place of the first newline.
fn newline_of(bytes: &[u8]) -> Option<usize>
    ensures { MatchOption result (IsWithinLine bytes.now) (IsNewline bytes.now) }
{
    memchr(b'\n', bytes)
}

/// What stands behind the first line, or `None` where there is no line.
fn behind_line(content: &[u8]) -> Option<&[u8]>
    ensures { MatchOption result (content.now ≡ []) (λ rest. Passes content.now rest.now 1) }
{
    if content.is_empty() {
        return None;
    }
    match newline_of(content) {
        Some(at) => Some(&content[at + 1..]),
        None => Some(&content[content.len()..]),
    }
}

/// The first `count` lines, and what stands behind them; or `None` where there are fewer lines.
#[tactic(auto, using(crate::proofs::Parted::inside))]
fn split_lines(content: &[u8], count: u32) -> Option<(&[u8], &[u8])>
    ensures { MatchOption result (length (lines_of content.now) < count) (λ parts. IsSplit content.now count parts.0.now parts.1.now) }
{
    let mut rest = content;
    'lines: for _passed in 0..count {
        rest = behind_line(rest)?;
    }
    Some(content.split_at(content.len() - rest.len()))
}

/// What stands before `count` lines from line `from` on, counted from 1, and behind them; or `None` where they aren't there.
fn around(content: &[u8], from: u32, count: u32) -> Option<(&[u8], &[u8])>
    ensures { MatchOption result (IsBadSplice from count content.now) (λ parts. AreAround content.now from count parts.0.now parts.1.now) }
{
    let before = from.checked_sub(1)?;
    let (front, behind) = split_lines(content, before)?;
    let (_, rest) = split_lines(behind, count)?;
    Some((front, rest))
}

/// Whether the last line has no newline.
fn lacks_newline(content: &[u8]) -> bool
    ensures { written (lines_of content.now) ≡ content.now ++ (if result then 10 ∷ [] else []) }
{
    match content.split_last() {
        Some((last, _)) => *last != b'\n',
        None => false,
    }
}

/// Puts the lines of a content behind others, each with its newline.
fn put_lines(into: &mut Vec<u8>, content: &[u8]) -> Result<(), AllocError>
    ensures { OnOk result (into.new.items ≡ into.old.items ++ written (lines_of content.now)) }
{
    into.extend_from_slice(content)?;
    if lacks_newline(content) {
        into.push(b'\n')?;
    }
    Ok(())
}

/// The lines of a content, where the lines of `bytes` stand for `count` of them from line `from` on, counted from 1; or `None`
/// where these aren't there. The time is linear in both.
pub fn spliced(
    alloc: Global,
    content: &[u8],
    from: u32,
    count: u32,
    bytes: &[u8],
) -> Result<Option<Vec<u8>>, AllocError>
    ensures { IfOk result (λ new. MatchOption new (IsBadSplice from count content.now) (λ new. IsSpliced content.now from count bytes.now new.items)) }
{
    let Some((front, rest)) = around(content, from, count) else {
        return Ok(None);
    };
    let mut new = Vec::new(alloc);
    put_lines(&mut new, front)?;
    put_lines(&mut new, bytes)?;
    put_lines(&mut new, rest)?;
    Ok(Some(new))
}

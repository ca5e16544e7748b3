ghost use Rattle.std.specs.Prelude.{◌≡◌};
ghost use Rattle.regex_tokens.specs.Cuts.{behind_gap, gap};
ghost use Rattle.regex_tokens.specs.Reading.{gap_step};

use crate::bytes::{ByteClass, front_len, is_blank};
use crate::comments::Comments;

/// The blanks and comments in front of a text, and what is behind them.
pub fn split_gap(text: &str, comments: Comments) -> (&[u8], &str)
    ensures front { result.0.now ≡ gap comments text.now }
    ensures behind { result.1.now ≡ behind_gap comments text.now }
{
    let behind = behind_gap(text, comments);
    let (gap, _) = text.as_bytes().split_at(text.len() - behind.len());
    (gap, behind)
}

fn behind_gap(text: &str, comments: Comments) -> &str
    ensures { result.now ≡ behind_gap comments text.now }
{
    let mut rest = text;
    'gap: while let Some(len) = gap_step(rest.as_bytes(), comments) {
        rest = rest.split_at(len).1;
    }
    rest
}

/// The length of the blank or comment in front, a comment without its newline.
fn gap_step(text: &[u8], comments: Comments) -> Option<usize>
    ensures { result ≡ gap_step comments text.now }
{
    let (first, _) = text.split_first()?;
    if is_blank(*first) {
        Some(1)
    } else if comments.begin_with(*first) {
        Some(front_len(text, ByteClass::Line))
    } else {
        None
    }
}

ghost use Rattle.std.specs.Prelude.{◌≡◌};
ghost use Rattle.regex_tokens.specs.Cuts.{behind_gap, gap};
ghost use Rattle.regex_tokens.specs.Reading.{gap_step};
ghost use Rattle.regex_tokens.specs.declared.comments.Comments.TheVariants.{OfEntries};

use crate::bytes::{ByteClass, front_len, is_blank};

/// The blanks and comments in front of a text, and what is behind them. A comment goes from `!` to the end of its line.
pub fn split_gap(text: &str) -> (&[u8], &str)
    ensures front { result.0.now ≡ gap OfEntries text.now }
    ensures behind { result.1.now ≡ behind_gap OfEntries text.now }
{
    let behind = behind_gap(text);
    let (gap, _) = text.as_bytes().split_at(text.len() - behind.len());
    (gap, behind)
}

fn behind_gap(text: &str) -> &str
    ensures { result.now ≡ behind_gap OfEntries text.now }
{
    let mut rest = text;
    'gap: while let Some(len) = gap_step(rest.as_bytes()) {
        rest = rest.split_at(len).1;
    }
    rest
}

/// The length of the blank or comment in front, a comment without its newline.
fn gap_step(text: &[u8]) -> Option<usize>
    ensures { result ≡ gap_step OfEntries text.now }
{
    let (first, _) = text.split_first()?;
    if is_blank(*first) {
        Some(1)
    } else if *first == b'!' {
        Some(front_len(text, ByteClass::Line))
    } else {
        None
    }
}

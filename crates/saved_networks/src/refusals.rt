ghost use Rattle.std.specs.Prelude.{◌≡◌, IfOk};
ghost use Rattle.saved_networks.specs.Refusals.{line_reason, reason, refused_line};

use crate::faults::SavedWhy;
use att_text::AttWhy;
use std::alloc::{AllocError, Global};

/// The name of a line's fault.
fn line_name_of(why: AttWhy) -> &'static str
    ensures { result.now ≡ line_reason why }
{
    match why {
        AttWhy::Statement => "statement",
        AttWhy::Flag => "flag",
        AttWhy::OpenSymbol => "open-symbol",
        AttWhy::LimitSymbols => "limit-symbols",
    }
}

/// The name of a reason.
fn name_of(why: SavedWhy) -> &'static str
    ensures { result.now ≡ reason why }
{
    match why {
        SavedWhy::NoFile => "no-file",
        SavedWhy::LimitFile => "limit-file",
        SavedWhy::NotUtf8 => "not-utf8",
        SavedWhy::Control => "control",
        SavedWhy::Line(why) => line_name_of(why),
    }
}

/// The line that tells that a file is refused, and its line, counted from 1, or 0 for the file as a whole: `refused FILE LINE WHY`.
pub fn refused(alloc: Global, file: &str, line: u32, why: SavedWhy) -> Result<Vec<u8>, AllocError>
    ensures { IfOk result (λ bytes. bytes.items ≡ refused_line file.now line why) }
{
    let why = name_of(why);
    let reply = format!(in alloc; "refused {file} {line} {why}\n")?;
    Ok(reply.into_bytes())
}

ghost use Rattle.std.specs.Prelude.{◌≡◌, ◌++◌, codes, decimal, IfOk};
ghost use Rattle.std.specs.String.{string_bytes};
ghost use Rattle.reply_text.specs.Projects.{accepted_line, refused_line, reason};

use fsm_base::Text;
use regex_ast::{Fault, Why};
use std::alloc::{AllocError, Global};

/// The name of a reason.
fn name_of(why: Why) -> &'static str
    ensures { result.now ≡ reason why }
{
    match why {
        Why::NoProject => "no-project",
        Why::LimitFile => "limit-file",
        Why::NotUtf8 => "not-utf8",
        Why::Control => "control",
        Why::Token => "token",
        Why::LimitNesting => "limit-nesting",
        Why::Statement => "statement",
        Why::LimitPower => "limit-power",
        Why::LimitRule => "limit-rule",
        Why::LimitFiles => "limit-files",
        Why::LimitEntries => "limit-entries",
        Why::LimitFeatures => "limit-features",
        Why::UnknownLexicon => "unknown-lexicon",
        Why::NoFile => "no-file",
        Why::Duplicate => "duplicate",
        Why::LimitNames => "limit-names",
        Why::LimitSymbols => "limit-symbols",
        Why::UnknownName => "unknown-name",
        Why::Cycle => "cycle",
        Why::NotALanguage => "not-a-language",
        Why::LimitWeight => "limit-weight",
        Why::EmptyCentre => "empty-centre",
        Why::BadSplice => "bad-splice",
    }
}

/// The reply to a project or an edit that is accepted as the version `number`, with the names whose networks were
/// built: `ok V rebuilt NAME NAME ..`.
pub fn accepted(alloc: Global, number: u64, names: &[Text]) -> Result<Vec<u8>, AllocError>
    ensures { IfOk result (λ bytes. bytes.items ≡ accepted_line number names.now) }
{
    let mut reply = format!(in alloc; "ok {number} rebuilt")?;
    'names: for name in names {
        reply.push(' ')?;
        reply.push_str(name.as_str())?;
    }
    reply.push('\n')?;
    Ok(reply.into_bytes())
}

/// The reply to a project or an edit that is refused for this fault: `refused FILE LINE WHY`.
pub fn refused(alloc: Global, fault: &Fault) -> Result<Vec<u8>, AllocError>
    ensures { IfOk result (λ bytes. bytes.items ≡ refused_line fault.now) }
{
    let file = fault.file.as_str();
    let line = fault.line;
    let why = name_of(fault.why);
    let reply = format!(in alloc; "refused {file} {line} {why}\n")?;
    Ok(reply.into_bytes())
}

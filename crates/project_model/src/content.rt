ghost use Rattle.std.specs.Prelude.{◌*◌, ◌≤◌, List, ℕ, IfErr, IfOk, length};
ghost use Rattle.fsm_base.specs.Normal.{IsWhyNoText, most_growth, source_text};
ghost use Rattle.project_sources.specs.Faults.{HasNoText};
ghost use Rattle.project_sources.specs.Limits.{most_bytes};
ghost use Rattle.project_sources.specs.Sources.{HasText};
ghost use Rattle.project_model.specs.Answers.{IsRefusedBy};

use fsm_base::{Text, TextError, normal};
use project_sources::{MOST_BYTES, PlanError, refused};
use regex_ast::Why;
use std::alloc::Global;

/// That bytes are no text.
fn no_text(alloc: Global, name: &str, error: TextError) -> PlanError
    ensures { (bytes : List ℕ) → length bytes ≤ most_bytes → IsWhyNoText (source_text bytes) error → IsRefusedBy (HasNoText name.now bytes) result }
{
    match error {
        TextError::NotUtf8 { line } => refused(alloc, name, line, Why::NotUtf8),
        TextError::Control { line } => refused(alloc, name, line, Why::Control),
        TextError::Memory(error) => PlanError::Memory(error),
    }
}

/// The text of a file of this name, by its content.
#[tactic(auto, unfolding(project_sources::specs::Limits::most_bytes))]
pub fn text_of_file(alloc: Global, name: &str, bytes: &[u8]) -> Result<Text, PlanError>
    ensures text { IfOk result (λ text. HasText bytes.now text) }
    ensures short { IfOk result (λ text. length text ≤ most_growth * most_bytes) }
    ensures error { IfErr result (IsRefusedBy (HasNoText name.now bytes.now)) }
{
    if bytes.len() > MOST_BYTES {
        return Err(refused(alloc, name, 0, Why::LimitFile));
    }
    match normal(alloc, bytes) {
        Ok(text) => Ok(text),
        Err(error) => Err(no_text(alloc, name, error)),
    }
}

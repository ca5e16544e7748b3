ghost use Rattle.std.specs.Prelude.{◌↔◌, List, ℕ, Contains, IsTrue, MatchOption, map};
ghost use Rattle.project_manifest.specs.Manifests.{project_name};
ghost use Rattle.project_manifest.specs.Sayings.{placed_of};
ghost use Rattle.project_sources.specs.Faults.{fault};
ghost use Rattle.project_model.specs.Answers.{IsUnknown, UnknownFault};
ghost use Rattle.regex_ast.specs.declared.fault.Fault.{Fault};
ghost use Rattle.regex_ast.specs.declared.fault.Why.TheVariants as why;

use fsm_base::Text;
use name_resolution::Names;
use project_manifest::ManifestLine;

/// Whether one of these isn't among the names.
fn has_unknown(names: &Names, required: &[Text]) -> bool
    ensures { IsTrue result ↔ ((name : List ℕ) × Contains required.now name × (Contains names.now name → ⊥)) }
{
    'required: for name in required {
        if !names.contains(name.as_str()) {
            return true;
        }
    }
    false
}

/// Whether a line of a manifest requires a name that isn't among these.
fn requires_unknown(names: &Names, line: &ManifestLine) -> bool
    ensures { IsTrue result ↔ IsUnknown names.now (placed_of line.now) }
{
    has_unknown(names, line.declares.required())
}

/// The first line that requires a name that isn't among these, or `None` where none does.
pub fn first_unknown<'a>(names: &Names, lines: &'a [ManifestLine]) -> Option<&'a ManifestLine>
    ensures { MatchOption result ((found : Fault) → UnknownFault names.now (map placed_of lines.now) found → ⊥) (λ line. UnknownFault names.now (map placed_of lines.now) (fault project_name line.now.number why.UnknownName)) }
{
    'lines: for line in lines {
        if requires_unknown(names, line) {
            return Some(line);
        }
    }
    None
}

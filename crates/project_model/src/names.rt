ghost use Rattle.std.specs.Prelude.{◌≡◌, map, IfOk, IfErr, OnOk};
ghost use Rattle.word_relations.specs.Words.{IsDistinct};
ghost use Rattle.regex_ast.specs.declared.fault.Fault.{Fault};
ghost use Rattle.project_meaning.specs.Projects.{names_of};
ghost use Rattle.project_sources.specs.Faults.{NamesFault, fault};
ghost use Rattle.project_model.specs.Answers.{IsRefusal, IsRefusedBy, written_of};

use crate::written::WrittenDefine;
use name_resolution::Names;
use project_sources::{MOST_NAMES, PlanError, refused};
use regex_ast::Why;
use std::alloc::Global;

/// The names of definitions, in their order. They are refused at the first definition whose name an earlier one has, or that
/// comes behind 512.
pub fn names_of(alloc: Global, written: &[WrittenDefine]) -> Result<Names, PlanError>
    ensures names { IfOk result (λ names. names ≡ names_of (map written_of written.now)) }
    ensures distinct { IfOk result IsDistinct }
    ensures faultless { OnOk result ((found : Fault) → NamesFault (map written_of written.now) found → ⊥) }
    ensures error { IfErr result (IsRefusedBy (NamesFault (map written_of written.now))) }
{
    let mut names = Names::new(alloc);
    'written: for one in written {
        if !names.add(one.name.as_str())? {
            return Err(refused_at(alloc, one, Why::Duplicate));
        }
        if names.len() > MOST_NAMES {
            return Err(refused_at(alloc, one, Why::LimitNames));
        }
    }
    Ok(names)
}

/// Refuses a definition.
fn refused_at(alloc: Global, one: &WrittenDefine, why: Why) -> PlanError
    ensures { IsRefusal (fault one.now.file one.now.line why) result }
{
    refused(alloc, one.file.as_str(), one.line, why)
}

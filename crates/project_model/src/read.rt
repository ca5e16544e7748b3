ghost use Rattle.std.specs.Prelude.{◌≡◌, ◌<◌, ◌≤◌, List, ℕ, All, IfErr, IfOk, OnErr, Some, length, take};
ghost use Rattle.fsm_io.specs.Folders.{file_of};
ghost use Rattle.project_manifest.specs.Manifests.{project_name};
ghost use Rattle.project_sources.specs.Limits.{most_before};
ghost use Rattle.project_model.specs.Answers.{IsManifestFile, IsNoManifest, IsProjectRead, IsRefusedBy};

use crate::content::text_of_file;
use crate::files::{Contents, contents_of};
use crate::plan::{Plan, plan_of};
use fsm_base::SymbolTable;
use project_manifest::{Manifest, read_manifest};
use project_sources::{PlanError, Sources, refused};
use regex_ast::{ReadError, Why};
use std::alloc::Global;

/// The manifest of a project, by the content of its file.
///
/// # Errors
///
/// `Refused` where the content is too long, no UTF-8, or has a control character; or by the first line with a fault, as
/// [`read_manifest`] tells it. `Memory` where there was no memory.
pub fn manifest_of(alloc: Global, bytes: &[u8]) -> Result<Manifest, PlanError>
    ensures manifest { IfOk result (λ manifest. IsManifestFile bytes.now manifest) }
    ensures error { IfErr result (IsRefusedBy (IsNoManifest bytes.now)) }
{
    let text = match text_of_file(alloc, "project", bytes) {
        Ok(text) => text,
        Err(error) => return Err(error),
    };
    match read_manifest(alloc, text.as_str()) {
        Ok(manifest) => Ok(manifest),
        Err(ReadError::Fault { line, why }) => Err(refused(alloc, "project", line, why)),
        Err(ReadError::Memory(error)) => Err(PlanError::Memory(error)),
    }
}

/// The plan of a project with this manifest, whose symbols are put into the table.
fn plan_by(
    alloc: Global,
    sources: &Sources,
    manifest: &Manifest,
    table: &mut SymbolTable,
) -> Result<Plan, PlanError>
    requires { length table.old ≤ most_before }
    ensures plan { (content : List ℕ) → file_of project_name sources.now ≡ Some content → IsManifestFile content manifest.now → IsProjectRead sources.now table.old table.new result }
    ensures front { take (length table.old) table.new ≡ table.old }
{
    let lines = manifest.lines();
    let contents = match contents_of(alloc, sources, lines) {
        Ok(contents) => contents,
        Err(error) => return Err(error),
    };
    let Contents { written, glosses } = contents;
    plan_of(alloc, lines, written, glosses, table)
}

/// The plan of a project, whose symbols are put into the table; after an error the table may have further symbols.
fn plan_of_sources(
    alloc: Global,
    sources: &Sources,
    table: &mut SymbolTable,
) -> Result<Plan, PlanError>
    requires { length table.old ≤ most_before }
    ensures plan { IsProjectRead sources.now table.old table.new result }
    ensures front { take (length table.old) table.new ≡ table.old }
{
    let Some(bytes) = sources.get("project") else {
        return Err(refused(alloc, "project", 0, Why::NoProject));
    };
    match manifest_of(alloc, bytes) {
        Ok(manifest) => plan_by(alloc, sources, &manifest, table),
        Err(error) => Err(error),
    }
}

/// The plan of a project, by its files. The manifest `project` names files of definitions (xfst), of lexicons (lexc) and of
/// two-level grammars (twolc) and may name one of glosses, and may list further symbols of the alphabet and names that must be
/// defined. The symbols of the project are put into the table, behind those that it has.
///
/// # Errors
///
/// `Refused` with the project's first fault, of these in their order:
///
/// - `NoProject` at the manifest, where it is missing; `LimitFile`, `NotUtf8` and `Control` of it, and then the first line with a
///   fault, as [`read_manifest`] tells it;
/// - file by file, in the order of the manifest: `NoFile` at the line that names it, where it is missing; `LimitFile`, `NotUtf8` and
///   `Control`; and then the faults of its statements, as `read_xfst` tells them, `read_lexc` of a file of lexicons, `read_twolc` of
///   one of a grammar, or [`GlossTable::read`] of one of glosses;
/// - `Duplicate` at the first definition whose name an earlier one has, `LimitNames` at the 513th name;
/// - `LimitSymbols` at the manifest, where the alphabet has more than 1,024 symbols;
/// - `UnknownName` at the first line of the manifest that requires a name that isn't defined;
/// - `Cycle` at the first definition that reaches itself by names;
/// - `NotALanguage` at the first one in which an operand that must be a language is a relation, a name being what its
///   definition is;
/// - `LimitWeight` at the first one that weighs more than 4,000,000, a name weighing what its definition weighs.
///
/// `Memory` where there was no memory. After an error the table is as before.
pub fn read_project(
    alloc: Global,
    sources: &Sources,
    table: &mut SymbolTable,
) -> Result<Plan, PlanError>
    requires { length table.old ≤ most_before }
    ensures plan { IsProjectRead sources.now table.old table.new result }
    ensures held { IfOk result (λ plan. All (λ s. s.0 < length table.new) plan.symbols) }
    ensures error { OnErr result (table.new ≡ table.old) }
{
    let before = table.len();
    match plan_of_sources(alloc, sources, table) {
        Ok(plan) => Ok(plan),
        Err(error) => {
            table.keep(before);
            Err(error)
        }
    }
}

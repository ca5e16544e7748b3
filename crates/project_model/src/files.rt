ghost use Rattle.lexc_grammar.specs.Files.{SaysLexicons};
ghost use Rattle.std.specs.Prelude.{◌≡◌, ◌*◌, ◌≤◌, ◌++◌, ◌∷◌, [], Err, Ok, IfErr, IfOk, OnOk, length, map};
ghost use Rattle.fsm_base.specs.Normal.{most_growth};
ghost use Rattle.interlinear.specs.Glosses.{SaysTable};
ghost use Rattle.project_manifest.specs.Lines.{file_in, gloss_files_in, glosses_said};
ghost use Rattle.project_manifest.specs.Rows.{First};
ghost use Rattle.project_manifest.specs.Sayings.{line_of, placed_of};
ghost use Rattle.project_sources.specs.Faults.{NamedFault, fault};
ghost use Rattle.project_sources.specs.Laws.{all_readers};
ghost use Rattle.project_sources.specs.Limits.{most_bytes};
ghost use Rattle.project_sources.specs.Sources.{FilesDefine, GlossesOf, declared, stated};
ghost use Rattle.project_model.specs.Answers.{IsRefusedBy, written_of};
ghost use Rattle.project_definitions.specs.Plain.{body_of};
ghost use Rattle.grammar_pairs.specs.Plain.{grammar_of};
ghost use Rattle.twolc_grammar.specs.Sections.{ReadsAs as SaysGrammar};
ghost use Rattle.project_model.specs.Files.{HasDefined, HasGlossed, HasPut, IsUnread};
ghost use Rattle.name_resolution.specs.Plain.{lexicon_of};
ghost use Rattle.regex_ast.specs.declared.fault.Fault.{Fault};
ghost use Rattle.regex_reader.specs.Files.{FaultAt, ReadsAs, statement_of};

use crate::content::text_of_file;
use crate::written::WrittenDefine;
use fsm_base::Text;
use interlinear::GlossTable;
use lexc_reader::read_lexc;
use project_definitions::Body;
use project_manifest::{Declaration, ManifestLine};
use project_sources::{PlanError, Sources, refused};
use regex_ast::{Define, Grammar, Lexicon, Raw, ReadError, Why};
use regex_reader::read_xfst;
use std::alloc::{AllocError, Global};
use twolc_reader::read_twolc;

/// What the files that a manifest names say.
#[derive(Drop)]
pub struct Contents {
    /// Their definitions, in order.
    pub written: Vec<WrittenDefine>,
    /// Their table of glosses, which is empty where no line names one.
    pub glosses: GlossTable,
}

/// The statements of a text of this file.
fn statements_in(alloc: Global, file: &str, text: &str) -> Result<Vec<Define<Raw>>, PlanError>
    requires { length text.now ≤ most_growth * most_bytes }
    ensures read { IfOk result (λ defines. ReadsAs text.now (Ok (map statement_of defines.items))) }
    ensures error { IfErr result (IsRefusedBy (λ found. (at : FaultAt) × ReadsAs text.now (Err at) × (found ≡ fault file.now at.line at.why))) }
{
    match read_xfst(alloc, text) {
        Ok(defines) => Ok(defines),
        Err(ReadError::Fault { line, why }) => Err(refused(alloc, file, line, why)),
        Err(ReadError::Memory(error)) => Err(PlanError::Memory(error)),
    }
}

/// The lexicons of a text of this file.
fn lexicons_in(alloc: Global, file: &str, text: &str) -> Result<Vec<Lexicon<Raw>>, PlanError>
    requires { length text.now ≤ most_growth * most_bytes }
    ensures read { IfOk result (λ lexicons. SaysLexicons text.now (Ok (map lexicon_of lexicons.items))) }
    ensures error { IfErr result (IsRefusedBy (λ found. (at : FaultAt) × SaysLexicons text.now (Err at) × (found ≡ fault file.now at.line at.why))) }
{
    match read_lexc(alloc, text) {
        Ok(lexicons) => Ok(lexicons),
        Err(ReadError::Fault { line, why }) => Err(refused(alloc, file, line, why)),
        Err(ReadError::Memory(error)) => Err(PlanError::Memory(error)),
    }
}

/// The grammar of a text of this file.
fn grammar_in(alloc: Global, file: &str, text: &str) -> Result<Grammar<Raw>, PlanError>
    requires { length text.now ≤ most_growth * most_bytes }
    ensures read { IfOk result (λ grammar. SaysGrammar text.now (Ok (grammar_of grammar))) }
    ensures error { IfErr result (IsRefusedBy (λ found. (at : FaultAt) × SaysGrammar text.now (Err at) × (found ≡ fault file.now at.line at.why))) }
{
    match read_twolc(alloc, text) {
        Ok(grammar) => Ok(grammar),
        Err(ReadError::Fault { line, why }) => Err(refused(alloc, file, line, why)),
        Err(ReadError::Memory(error)) => Err(PlanError::Memory(error)),
    }
}

/// The table of glosses of a text of this file.
fn glosses_in(alloc: Global, file: &str, text: &str) -> Result<GlossTable, PlanError>
    requires { length text.now ≤ most_growth * most_bytes }
    ensures read { IfOk result (λ table. SaysTable text.now (Ok table)) }
    ensures error { IfErr result (IsRefusedBy (λ found. (at : FaultAt) × SaysTable text.now (Err at) × (found ≡ fault file.now at.line at.why))) }
{
    match GlossTable::read(alloc, text) {
        Ok(table) => Ok(table),
        Err(ReadError::Fault { line, why }) => Err(refused(alloc, file, line, why)),
        Err(ReadError::Memory(error)) => Err(PlanError::Memory(error)),
    }
}

/// Puts definitions of a file behind others.
fn add_defines(
    file: &Text,
    defines: Vec<Define<Raw>>,
    written: &mut Vec<WrittenDefine>,
) -> Result<(), AllocError>
    ensures { OnOk result (map written_of written.new.items ≡ map written_of written.old.items ++ map (stated file.now) (map statement_of defines.items)) }
{
    'defines: for define in defines {
        written.push(WrittenDefine {
            name: define.name,
            line: define.line,
            file: file.clone()?,
            body: Body::Xfst(define.expr),
        })?;
    }
    Ok(())
}

/// Puts the definition of a line of the manifest behind others: the name is the relation of what its file has.
fn add_declared(
    alloc: Global,
    line: u32,
    name: &Text,
    body: Body<Raw>,
    written: &mut Vec<WrittenDefine>,
) -> Result<(), AllocError>
    ensures { OnOk result (map written_of written.new.items ≡ map written_of written.old.items ++ declared name.now line (body_of body)) }
{
    written.push(WrittenDefine {
        name: name.clone()?,
        line,
        file: Text::of(alloc, "project")?,
        body,
    })?;
    Ok(())
}

/// Puts the definitions of a text of the file that a line names behind others, or its table of glosses in place of the one
/// before.
fn add_text(
    alloc: Global,
    line: &ManifestLine,
    file: &Text,
    text: &str,
    written: &mut Vec<WrittenDefine>,
    glosses: &mut GlossTable,
) -> Result<(), PlanError>
    requires file { file_in (line_of line.now.declares) ≡ file.now ∷ [] }
    requires short { length text.now ≤ most_growth * most_bytes }
    ensures written { OnOk result (HasPut (placed_of line.now) text.now (map written_of written.old.items) (map written_of written.new.items)) }
    ensures glosses { OnOk result (HasGlossed (line_of line.now.declares) text.now glosses.old glosses.new) }
    ensures error { IfErr result (IsRefusedBy (IsUnread (placed_of line.now) file.now text.now)) }
{
    match &line.declares {
        Declaration::Definitions { .. } => match statements_in(alloc, file.as_str(), text) {
            Ok(defines) => {
                add_defines(file, defines, written)?;
                Ok(())
            }
            Err(error) => Err(error),
        },
        Declaration::Lexicon { name, .. } => match lexicons_in(alloc, file.as_str(), text) {
            Ok(lexicons) => {
                add_declared(alloc, line.number, name, Body::Lexc(lexicons), written)?;
                Ok(())
            }
            Err(error) => Err(error),
        },
        Declaration::Grammar { name, .. } => match grammar_in(alloc, file.as_str(), text) {
            Ok(grammar) => {
                add_declared(alloc, line.number, name, Body::Twolc(grammar), written)?;
                Ok(())
            }
            Err(error) => Err(error),
        },
        Declaration::Glosses { .. } => match glosses_in(alloc, file.as_str(), text) {
            Ok(table) => {
                *glosses = table;
                Ok(())
            }
            Err(error) => Err(error),
        },
        _ => unreachable!(),
    }
}

/// Puts the definitions of the file that a line names behind others, or its table of glosses in place of the one before; or tells
/// its first fault.
fn add_file(
    alloc: Global,
    sources: &Sources,
    line: &ManifestLine,
    file: &Text,
    written: &mut Vec<WrittenDefine>,
    glosses: &mut GlossTable,
) -> Result<(), PlanError>
    requires { file_in (line_of line.now.declares) ≡ file.now ∷ [] }
    ensures written { OnOk result (HasDefined sources.now (placed_of line.now) (map written_of written.old.items) (map written_of written.new.items)) }
    ensures glosses { OnOk result (GlossesOf all_readers sources.now glosses.old (glosses_said (line_of line.now.declares)) glosses.new) }
    ensures error { IfErr result (IsRefusedBy (NamedFault all_readers sources.now (placed_of line.now))) }
{
    let Some(content) = sources.get(file.as_str()) else {
        return Err(refused(alloc, "project", line.number, Why::NoFile));
    };
    match text_of_file(alloc, file.as_str(), content) {
        Ok(text) => add_text(alloc, line, file, text.as_str(), written, glosses),
        Err(error) => Err(error),
    }
}

/// Puts the definitions of the file that a line names, if it names one, behind others, or its table of glosses in place of the
/// one before; or tells its first fault.
fn add_line(
    alloc: Global,
    sources: &Sources,
    line: &ManifestLine,
    written: &mut Vec<WrittenDefine>,
    glosses: &mut GlossTable,
) -> Result<(), PlanError>
    ensures written { OnOk result (HasDefined sources.now (placed_of line.now) (map written_of written.old.items) (map written_of written.new.items)) }
    ensures glosses { OnOk result (GlossesOf all_readers sources.now glosses.old (glosses_said (line_of line.now.declares)) glosses.new) }
    ensures error { IfErr result (IsRefusedBy (NamedFault all_readers sources.now (placed_of line.now))) }
{
    match line.declares.file() {
        Some(file) => add_file(alloc, sources, line, file, written, glosses),
        None => Ok(()),
    }
}

/// The definitions of the files that these lines name, in order, and their glosses; or their first fault.
pub fn contents_of(
    alloc: Global,
    sources: &Sources,
    lines: &[ManifestLine],
) -> Result<Contents, PlanError>
    ensures written { IfOk result (λ contents. FilesDefine all_readers sources.now (map placed_of lines.now) (map written_of contents.written.items)) }
    ensures glosses { IfOk result (λ contents. GlossesOf all_readers sources.now [] (gloss_files_in (map placed_of lines.now)) contents.glosses) }
    ensures faultless { OnOk result ((found : Fault) → First (NamedFault all_readers sources.now) (map placed_of lines.now) found → ⊥) }
    ensures error { IfErr result (IsRefusedBy (First (NamedFault all_readers sources.now) (map placed_of lines.now))) }
{
    let mut written = Vec::new(alloc);
    let mut glosses = GlossTable::empty(alloc);
    'lines: for line in lines {
        match add_line(alloc, sources, line, &mut written, &mut glosses) {
            Ok(()) => {}
            Err(error) => return Err(error),
        }
    }
    Ok(Contents { written, glosses })
}

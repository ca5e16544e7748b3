ghost use Rattle.std.specs.Prelude.{◌≡◌, ◌↔◌, ◌<◌, ◌++◌, List, Contains, IfErr, IfOk, IsTrue, OnOk, length, map};
ghost use Rattle.regex_ast.specs.declared.fault.ReadError.TheVariants as error;
ghost use Rattle.project_manifest.specs.Lines.{NamesAgain, NamesTooMany, Placed, SaysLine, files_in, line_in, manifest_of, placed_in};
ghost use Rattle.project_manifest.specs.Manifests.{lines_of};
ghost use Rattle.project_manifest.specs.Reading.{HasNoFault, HaveGlosses, IsFaultless, IsLineError, IsManifest, IsManifestError};
ghost use Rattle.project_manifest.specs.Sayings.{AreTexts, as_written, line_of, placed_of, saying_of};

use crate::declarations::{Declaration, declared};
use crate::said::{Said, all_said};
use fsm_base::Text;
use regex_ast::{ReadError, Why};
use std::alloc::Global;
use std::marker::Model;

/// The most files that a manifest names.
const MOST_FILES: usize = 64;

/// A line of a manifest that declares something.
#[derive(Debug, Drop)]
pub struct ManifestLine {
    /// Its number, counted from 1.
    pub number: u32,
    /// What it declares.
    pub declares: Declaration,
}

/// What the manifest of a project says. Contracts see it as the list of its lines.
#[derive(Drop)]
pub struct Manifest {
    /// The lines that declare something, in order.
    lines: Vec<ManifestLine>,
    /// The files that they name, in order.
    files: Vec<Text>,
}

impl Model for Manifest {
    ghost use Rattle.std.specs.Prelude.{◌≡◌, List, map};
    ghost use Rattle.project_manifest.specs.Lines.{Placed, files_in};
    ghost use Rattle.project_manifest.specs.Reading.{IsManifest};
    ghost use Rattle.project_manifest.specs.Sayings.{placed_of};

    ghost Value = { List Placed };

    ghost view = { λ m. map placed_of m.lines.items };

    ghost invariant = { λ m. (m.files.items ≡ files_in (map placed_of m.lines.items)) × IsManifest (map placed_of m.lines.items) };
}

impl Manifest {
    /// The lines that declare something, in order.
    pub fn lines(&self) -> &[ManifestLine]
        ensures lines { map placed_of result.now ≡ self.now }
        ensures formed { IsManifest self.now }
    {
        &self.lines
    }

    /// The files that they name, in order.
    pub fn files(&self) -> &[Text]
        ensures files { result.now ≡ files_in self.now }
        ensures formed { IsManifest self.now }
    {
        &self.files
    }
}

/// Whether a file is one of these.
fn is_among(file: &Text, files: &[Text]) -> bool
    ensures { IsTrue result ↔ Contains files.now file.now }
{
    'files: for named in files {
        if named.as_str() == file.as_str() {
            return true;
        }
    }
    false
}

/// Whether one of these lines names the table of glosses.
fn have_glosses(lines: &[ManifestLine]) -> bool
    ensures { IsTrue result ↔ HaveGlosses (map placed_of lines.now) }
{
    'lines: for line in lines {
        if line.declares.is_glosses() {
            return true;
        }
    }
    false
}

/// Whether what is declared was declared before, by lines that name these files: its file is one of them, or it is a second
/// table of glosses.
fn names_again(declares: &Declaration, lines: &[ManifestLine], files: &[Text]) -> bool
    requires { files.now ≡ files_in (map placed_of lines.now) }
    ensures { IsTrue result ↔ NamesAgain (map placed_of lines.now) (line_of declares.now) }
{
    if declares.is_glosses() && have_glosses(lines) {
        return true;
    }
    match declares.file() {
        Some(file) => is_among(file, files),
        None => false,
    }
}

/// Whether a file is declared behind so many as there may be.
#[tactic(auto, unfolding(crate::specs::Lines::most_files))]
fn names_too_many(declares: &Declaration, files: &[Text]) -> bool
    ensures { (before : List Placed) → files.now ≡ files_in before → IsTrue result ↔ NamesTooMany before (line_of declares.now) }
{
    declares.file().is_some() && files.len() >= MOST_FILES
}

/// That a line is refused.
fn refused(said: &Said, why: Why) -> ReadError
    ensures { result ≡ error.Fault said.now.line why }
{
    ReadError::Fault {
        line: said.line,
        why,
    }
}

/// What a line declares behind others, which name these files; or its first fault.
fn declared_behind(
    alloc: Global,
    said: &Said,
    lines: &[ManifestLine],
    files: &[Text],
) -> Result<Declaration, ReadError>
    requires texts { AreTexts (as_written said.now.words.items) }
    requires files { files.now ≡ files_in (map placed_of lines.now) }
    ensures says { IfOk result (λ found. SaysLine (as_written said.now.words.items) (line_of found)) }
    ensures faultless { OnOk result (IsFaultless (map placed_of lines.now) (saying_of said.now)) }
    ensures new { IfOk result (λ found. NamesAgain (map placed_of lines.now) (line_of found) → ⊥) }
    ensures error { IfErr result (IsLineError (map placed_of lines.now) (saying_of said.now)) }
{
    let Some(declares) = declared(alloc, &said.words)? else {
        return Err(refused(said, Why::Statement));
    };
    if names_again(&declares, lines, files) {
        return Err(refused(said, Why::Duplicate));
    }
    if names_too_many(&declares, files) {
        return Err(refused(said, Why::LimitFiles));
    }
    Ok(declares)
}

/// Puts what a line declares behind others, which name these files; or tells its first fault.
fn add_line(
    alloc: Global,
    said: &Said,
    lines: &mut Vec<ManifestLine>,
    files: &mut Vec<Text>,
) -> Result<(), ReadError>
    requires texts { AreTexts (as_written said.now.words.items) }
    requires files { files.old.items ≡ files_in (map placed_of lines.old.items) }
    ensures lines { OnOk result (map placed_of lines.new.items ≡ map placed_of lines.old.items ++ placed_in said.now.line (line_in (as_written said.now.words.items))) }
    ensures files { OnOk result (files.new.items ≡ files_in (map placed_of lines.new.items)) }
    ensures formed { OnOk result (IsManifest (map placed_of lines.old.items) → IsManifest (map placed_of lines.new.items)) }
    ensures faultless { OnOk result (IsFaultless (map placed_of lines.old.items) (saying_of said.now)) }
    ensures error { IfErr result (IsLineError (map placed_of lines.old.items) (saying_of said.now)) }
{
    let declares = match declared_behind(alloc, said, lines, files) {
        Ok(declares) => declares,
        Err(error) => return Err(error),
    };
    if let Some(file) = declares.file() {
        files.push(file.clone()?)?;
    }
    lines.push(ManifestLine {
        number: said.line,
        declares,
    })?;
    Ok(())
}

/// What the text of a manifest says: its lines, one statement each.
///
/// # Errors
///
/// The first line with a fault, by the first that it has of these:
///
/// - `Statement`, where it is none of `lexc NAME FILE`, `twolc NAME FILE`, `xfst FILE`, `alphabet SYM ..`, `require NAME ..` and
///   `gloss FILE`;
/// - `Duplicate`, where it names a file again, or a second table of glosses;
/// - `LimitFiles`, where it names the 65th file.
///
/// `Memory` where there was no memory.
pub fn read_manifest(alloc: Global, text: &str) -> Result<Manifest, ReadError>
    requires { length (lines_of text.now) < 4294967295 }
    ensures lines { IfOk result (λ manifest. manifest ≡ manifest_of text.now) }
    ensures faultless { OnOk result (HasNoFault text.now) }
    ensures error { IfErr result (IsManifestError text.now) }
{
    let said = all_said(alloc, text.as_bytes())?;
    let mut lines = Vec::new(alloc);
    let mut files = Vec::new(alloc);
    'all: for one in &said {
        match add_line(alloc, one, &mut lines, &mut files) {
            Ok(()) => {}
            Err(error) => return Err(error),
        }
    }
    Ok(Manifest { lines, files })
}

use fsm_base::Text;
use fsm_io::{DirFolder, Folder, Found};
use project_model::manifest_of;
use std::os::unix::fs::MetadataExt;
use std::{fs, io};

/// The most bytes that are read of a manifest: one more than it may have.
const MOST_READ: usize = 1_048_577;

/// A file, whatever path names it.
#[derive(Clone, Copy, Debug, PartialEq, Eq)]
struct FileId {
    /// The device that has it.
    device: u64,
    /// Its number there.
    number: u64,
}

/// The file that a path names, if there is one.
fn file_of(rt: &HostRuntime, path: &str) -> Option<FileId> {
    let metadata = fs::metadata(rt, path).ok()?;
    Some(FileId {
        device: metadata.dev(),
        number: metadata.ino(),
    })
}

/// Where the output of a lane is written.
#[derive(Debug, Drop)]
struct Output {
    /// The file, if it is there already.
    file: Option<FileId>,
    /// The folder that it stands in.
    folder: Option<FileId>,
    /// Its name there.
    name: String,
}

impl Output {
    /// The output of this path.
    fn of(rt: &HostRuntime, path: &str) -> io::Result<Output> {
        let (folder, name) = match path.rsplit_once('/') {
            Some(("", name)) => ("/", name),
            Some((folder, name)) => (folder, name),
            None => (".", path),
        };
        Ok(Output {
            file: file_of(rt, path),
            folder: file_of(rt, folder),
            name: String::from_str(rt.alloc(), name)?,
        })
    }

    /// Whether the two are one file, or will be one where they aren't there yet.
    fn is(&self, other: &Output) -> bool {
        let is_file = self.file.is_some() && self.file == other.file;
        is_file || self.folder == other.folder && self.name.as_str() == other.name.as_str()
    }
}

/// The names of the files of the project in this folder, as far as its manifest says them.
fn project_files(rt: &HostRuntime, dir: &str) -> io::Result<Vec<Text>> {
    let mut names = Vec::new(rt.alloc());
    names.push(Text::of(rt.alloc(), "project")?)?;
    let mut folder = DirFolder::new(rt, Text::of(rt.alloc(), dir)?);
    let Ok(Found::Bytes(manifest)) = folder.read(rt.alloc(), "project", MOST_READ) else {
        return Ok(names);
    };
    let Ok(manifest) = manifest_of(rt.alloc(), &manifest) else {
        return Ok(names);
    };
    for name in manifest.files() {
        names.push(name.clone()?)?;
    }
    Ok(names)
}

/// The files that no lane may write: those of the project, and what lanes read.
fn kept_files(rt: &HostRuntime, dir: &str, inputs: &[String]) -> io::Result<Vec<FileId>> {
    let mut kept = Vec::new(rt.alloc());
    for name in &project_files(rt, dir)? {
        let name = name.as_str();
        let path = format!(in rt.alloc(); "{dir}/{name}")?;
        if let Some(file) = file_of(rt, path.as_str()) {
            kept.push(file)?;
        }
    }
    for input in inputs {
        if let Some(file) = file_of(rt, input.as_str()) {
            kept.push(file)?;
        }
    }
    Ok(kept)
}

/// Whether the outputs of lanes are apart from one another, from what lanes read, and from the files of the project in this folder. So no source
/// and no question is lost by a lane.
pub fn are_apart(
    rt: &HostRuntime,
    dir: &str,
    inputs: &[String],
    paths: &[String],
) -> io::Result<bool> {
    let kept = kept_files(rt, dir, inputs)?;
    let mut outputs: Vec<Output> = Vec::new(rt.alloc());
    for path in paths {
        let output = Output::of(rt, path.as_str())?;
        let is_kept = output.file.is_some_and(|file| kept.contains(&file));
        if is_kept || outputs.iter().any(|other| output.is(other)) {
            return Ok(false);
        }
        outputs.push(output)?;
    }
    Ok(true)
}

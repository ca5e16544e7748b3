ghost use Rattle.std.specs.Prelude.{◌≡◌, ℕ, ◌≤◌, ⊤, None, IfOk, IfSome, length, take};
ghost use Rattle.fsm_io.specs.Folders.{HasAtMost};

use crate::folder::{Folder, FolderError, Found};
use fsm_base::Text;
use std::alloc::{AllocError, Global};
use std::fs;
use std::io::{ErrorKind, Read};
use std::rt::Files;

/// How many bytes a read of a file asks for.
const CHUNK: usize = 4096;

/// A folder of the file system, which tells nothing of what it holds.
#[derive(Drop)]
pub struct DirFolder<'a, R> {
    /// What opens files.
    rt: &'a R,
    /// The path of the folder.
    dir: Text,
    /// How many reads failed, as far as 64 bits count.
    faults: u64,
}

/// Whether an error says that there is no file of the name: nothing stands there, what should be the folder is none, or
/// the name is longer than the system's names are.
fn is_missing(kind: ErrorKind) -> bool {
    matches!(
        kind,
        ErrorKind::NotFound | ErrorKind::NotADirectory | ErrorKind::InvalidFilename
    )
}

impl<'a, R: Files> DirFolder<'a, R> {
    /// The folder of this path. Nothing is read yet.
    pub fn new(rt: &'a R, dir: Text) -> DirFolder<'a, R>
        ensures { ⟦<DirFolder<'a, R> as Folder>⟧.faults result ≡ 0 }
    {
        DirFolder { rt, dir, faults: 0 }
    }

    /// Opens and reads the file of this name.
    fn find(&self, alloc: Global, name: &str, most: usize) -> Result<Found, FolderError>
        ensures { IfOk result (HasAtMost most) }
    {
        let dir = self.dir.as_str();
        let path = format!(in alloc; "{dir}/{name}")?;
        match fs::open(self.rt, path.as_str()) {
            Ok(mut file) => read_found(alloc, &mut file, most),
            Err(error) if is_missing(error.kind()) => Ok(Found::Missing),
            Err(_) => Err(FolderError::Failed),
        }
    }
}

impl<'a, R: Files> Folder for DirFolder<'a, R> {
    ghost use Rattle.fsm_io.specs.Causes.{FolderCause};
    ghost use Rattle.fsm_io.specs.Folders.{Files, Finds, HasAsked, Told};

    ghost files = { λ _. None };

    ghost faults = { λ s. s.faults };

    ghost asked = { λ _. None };

    /// A file that isn't there is missing, so too where the folder is none or the name too long, and any other
    /// error is a fault. No more than `most` bytes are kept, however long the file is.
    fn read(&mut self, alloc: Global, name: &str, most: usize) -> Result<Found, FolderError>
        ensures bound { IfOk result (HasAtMost most) }
        ensures found { IfOk result (λ found. Told {T = Files} None (Finds name.now most found)) }
        ensures asked { HasAsked None None name.now most result }
        ensures cause { FolderCause self.old.faults self.new.faults result }
    {
        let result = self.find(alloc, name, most);
        if let Err(FolderError::Failed) = &result {
            self.faults = self.faults.saturating_add(1);
        }
        result
    }

    fn faults(&self) -> u64 {
        self.faults
    }
}

/// The first `most` bytes of a file, as found.
fn read_found<F: Read>(alloc: Global, file: &mut F, most: usize) -> Result<Found, FolderError>
    ensures { IfOk result (HasAtMost most) }
{
    let bytes = read_front(alloc, file, most)?;
    Ok(Found::Bytes(bytes))
}

/// The first `most` bytes that the reader has left, read in small parts.
fn read_front<F: Read>(alloc: Global, file: &mut F, most: usize) -> Result<Vec<u8>, FolderError>
    ensures bound { IfOk result (λ bytes. length bytes.items ≤ most) }
    ensures front { IfOk result (λ bytes. IfSome (F.remaining file.old) (λ left. bytes.items ≡ take most left)) }
{
    let mut bytes = Vec::new(alloc);
    let mut chunk = [0u8; CHUNK];
    'chunks: while bytes.len() < most {
        let room = CHUNK.min(most - bytes.len());
        match file.read(&mut chunk[..room]) {
            Ok(0) => break,
            Ok(count) => bytes.extend_from_slice(&chunk[..count])?,
            Err(_) => return Err(FolderError::Failed),
        }
    }
    Ok(bytes)
}

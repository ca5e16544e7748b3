ghost use Rattle.std.specs.Prelude.{◌≡◌, ℕ, ◌<◌, List, Option, IfOk};

use std::alloc::{AllocError, Global};
use thiserror::Error;

/// What a read of a folder found.
#[derive(Debug, Drop)]
pub enum Found {
    /// The file's first bytes.
    Bytes(Vec<u8>),
    /// There is no such file.
    Missing,
}

/// Why a folder could not be read.
#[derive(Clone, Copy, Debug, PartialEq, Eq, Error)]
pub enum FolderError {
    /// The folder failed, and its count of faults rose.
    #[error("the folder could not be read")]
    Failed,
    /// There was no memory.
    #[error(transparent)]
    Memory(AllocError),
}

impl From<AllocError> for FolderError {
    ghost use Rattle.std.specs.Prelude.{◌≡◌, Err};
    ghost use Rattle.fsm_io.specs.declared.folder.FolderError.{FolderError};
    ghost use Rattle.fsm_io.specs.declared.folder.FolderError.TheVariants.{Memory};

    ghost from_gives = { λ error result. result ≡ Memory error };

    fn from(error: AllocError) -> FolderError {
        FolderError::Memory(error)
    }
}

/// A set of files, by name.
pub trait Folder {
    ghost use Rattle.fsm_io.specs.Causes.{FolderCause};
    ghost use Rattle.fsm_io.specs.Folders.{Asked, Files, Finds, HasAsked, Told};

    /// The files, or `None` where they aren't told.
    ghost files: { Self → Option Files };

    /// The failed calls so far, which [`Folder::faults`] answers.
    ghost faults: { Self → ℕ };

    /// What it was asked for so far, or `None` where that isn't told.
    ghost asked: { Self → Option (List Asked) };

    /// The first `most` bytes of the file of this name. A read changes no file.
    fn read(&mut self, alloc: Global, name: &str, most: usize) -> Result<Found, FolderError>
        ensures found { IfOk result (λ found. Told (files self.old) (Finds name.now most found)) }
        ensures files { files self.new ≡ files self.old }
        ensures asked { HasAsked (asked self.old) (asked self.new) name.now most result }
        ensures cause { FolderCause (faults self.old) (faults self.new) result };

    /// How many calls failed so far, as far as 64 bits count.
    fn faults(&self) -> u64
        ensures { result ≡ faults self.now };
}

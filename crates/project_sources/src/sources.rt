ghost use Rattle.std.specs.Prelude.{◌≡◌, None, Some, [], List, ℕ, cond, length, IfOk, OnOk, OnErr};
ghost use Rattle.std.specs.Option.{option_map};
ghost use Rattle.std.specs.Str.{bytes_eq};
ghost use Rattle.word_relations.specs.Words.{IsDistinct};
ghost use Rattle.fsm_io.specs.Folders.{file_of};
ghost use Rattle.project_sources.specs.Files.{names_in};

use indexmap::IndexMap;
use std::alloc::{AllocError, Global};
use std::marker::Model;
use std::sync::Arc;

/// The files of a project, by their names. Contracts see them as a list of names and contents. A clone has names of its own and
/// shares the contents, so that it costs no more than the names.
#[derive(Drop)]
pub struct Sources {
    /// The content of each file, by its name.
    files: IndexMap<String, Arc<Vec<u8>>>,
}

impl Model for Sources {
    ghost use Rattle.fsm_io.specs.Folders.{Files};
    ghost use Rattle.project_sources.specs.Files.{files_in};

    ghost Value = { Files };

    ghost view = { λ sources. files_in sources.files.entries };
}

impl Sources {
    /// No files.
    pub fn new(alloc: Global) -> Sources
        ensures { result ≡ [] }
    {
        Sources {
            files: IndexMap::new(alloc),
        }
    }

    /// How many files there are.
    pub fn len(&self) -> usize
        ensures len { result ≡ length self.now }
        ensures apart { IsDistinct (names_in self.now) }
    {
        self.files.len()
    }

    /// The content of a file, or `None` where there is no file of this name.
    pub fn get(&self, file: &str) -> Option<&[u8]>
        ensures { option_map (λ bytes. bytes.now) result ≡ file_of file.now self.now }
    {
        match self.files.get(file) {
            Some(bytes) => Some(bytes.as_slice()),
            None => None,
        }
    }

    /// Puts a file in the place of the one of this name, or beside the others.
    pub fn put(&mut self, file: &str, bytes: Vec<u8>) -> Result<(), AllocError>
        ensures put { OnOk result ((name : List ℕ) → file_of name self.new ≡ cond (bytes_eq file.now name) (Some bytes.items) (file_of name self.old)) }
        ensures err { OnErr result (self.new ≡ self.old) }
    {
        let alloc = *self.files.allocator();
        let name = String::from_str(alloc, file)?;
        let bytes = Arc::new(alloc, bytes)?;
        self.files.insert(name, bytes)?;
        Ok(())
    }

    /// Lets go of the file of this name, if there is one. The time is linear in the number of files.
    pub fn remove(&mut self, file: &str)
        ensures { (name : List ℕ) → file_of name self.new ≡ cond (bytes_eq file.now name) None (file_of name self.old) }
    {
        self.files.shift_remove(file);
    }
}

impl Clone for Sources {
    ghost is_clone = { λ source sources. sources ≡ source };

    fn clone(&self) -> Result<Sources, AllocError> {
        Ok(Sources {
            files: self.files.clone()?,
        })
    }
}

ghost use Rattle.std.specs.Prelude.{◌≡◌, ◌∷◌, ◌++◌, ℕ, [], Some, IfOk, OnOk, OnErr};
ghost use Rattle.fsm_io.specs.Folders.{Finds};
ghost use Rattle.fsm_io.specs.Objects.{contents};

use crate::folder::{Folder, FolderError, Found};
use fsm_base::Text;
use std::alloc::{AllocError, Global};
use std::marker::Model;

/// A request for a file.
#[derive(Debug, Drop)]
pub struct Request {
    /// The file's name.
    pub name: Text,
    /// How many bytes of it at most.
    pub most: usize,
}

impl Request {
    /// A request for the file of this name.
    fn of(alloc: Global, name: &str, most: usize) -> Result<Request, AllocError>
        ensures { IfOk result (λ request. (request.name ≡ name.now) × (request.most ≡ most)) }
    {
        let name = Text::of(alloc, name)?;
        Ok(Request { name, most })
    }
}

/// Puts a request behind those before it.
fn note(requests: &mut Vec<Request>, request: Request) -> Result<(), AllocError>
    ensures noted { OnOk result (requests.new.items ≡ requests.old.items ++ request ∷ []) }
    ensures refused { OnErr result (requests.new.items ≡ requests.old.items) }
{
    requests.push(request)?;
    Ok(())
}

/// A folder in memory, which fails at listed calls and keeps what it was asked for.
#[derive(Drop)]
pub struct MemoryFolder {
    /// Names and contents. Of two files of one name the first counts.
    files: Vec<(Text, Vec<u8>)>,
    /// What it was asked for, in order.
    requests: Vec<Request>,
    /// The calls that fail, counted from 1.
    failing: Vec<u64>,
    /// How many calls there were.
    calls: u64,
    /// How many of them failed.
    faults: u64,
}

impl Model for MemoryFolder {
    ghost use Rattle.fsm_io.specs.Objects.{FolderView, contents};
    ghost use Rattle.fsm_io.specs.Requests.{asked_in};

    ghost Value = { FolderView };

    ghost view = { λ s. record { files = contents s.files.items; asked = asked_in s.requests.items; failing = s.failing.items; calls = s.calls; faults = s.faults } };
}

impl MemoryFolder {
    ghost use Rattle.fsm_io.specs.Objects.{FolderView, contents};
    ghost use Rattle.fsm_io.specs.Requests.{asked_in};

    /// A folder of these files, each with its name, of which the first of a name counts. It fails at
    /// the calls listed in `failing`, counted from 1.
    pub fn new(files: Vec<(Text, Vec<u8>)>, failing: Vec<u64>) -> MemoryFolder
        ensures { result ≡ record { files = contents files.items; asked = []; failing = failing.items; calls = 0; faults = 0 } }
    {
        let requests = Vec::new(*failing.allocator());
        MemoryFolder {
            files,
            requests,
            failing,
            calls: 0,
            faults: 0,
        }
    }

    /// What was asked for so far, in order. A request that was refused for want of memory or failed may be missing.
    pub fn requests(&self) -> &[Request]
        ensures { asked_in result.now ≡ self.now.asked }
    {
        &self.requests
    }
}

impl Folder for MemoryFolder {
    ghost use Rattle.fsm_io.specs.Causes.{FolderCause};
    ghost use Rattle.fsm_io.specs.Folders.{Finds, HasAsked};
    ghost use Rattle.fsm_io.specs.Objects.{ReadsListed};

    ghost files = { λ s. Some s.files };

    ghost asked = { λ s. Some s.asked };

    ghost faults = { λ s. s.faults };

    fn read(&mut self, alloc: Global, name: &str, most: usize) -> Result<Found, FolderError>
        ensures found { IfOk result (λ found. Finds name.now most found self.old.files) }
        ensures files { self.new.files ≡ self.old.files }
        ensures asked { HasAsked (Some self.old.asked) (Some self.new.asked) name.now most result }
        ensures cause { FolderCause self.old.faults self.new.faults result }
        ensures exact { ReadsListed self.old self.new result }
    {
        self.calls = self.calls.saturating_add(1);
        if self.failing.contains(&self.calls) {
            self.faults = self.faults.saturating_add(1);
            return Err(FolderError::Failed);
        }
        note(&mut self.requests, Request::of(alloc, name, most)?)?;
        Ok(found_in(alloc, &self.files, name, most)?)
    }

    fn faults(&self) -> u64 {
        self.faults
    }
}

/// The first `most` bytes of the first file of this name.
fn found_in(
    alloc: Global,
    files: &[(Text, Vec<u8>)],
    name: &str,
    most: usize,
) -> Result<Found, AllocError>
    ensures { IfOk result (λ found. Finds name.now most found (contents files.now)) }
{
    'files: for (file, content) in files {
        if file.as_str() == name {
            let count = most.min(content.len());
            return Ok(Found::Bytes(Vec::from_slice(alloc, &content[..count])?));
        }
    }
    Ok(Found::Missing)
}

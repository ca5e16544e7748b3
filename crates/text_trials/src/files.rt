use fsm_base::Text;
use fsm_io::{DirFolder, Folder, FolderError, Found, MemoryFolder};
use row_texts::shown;
use std::alloc::{AllocError, Global};
use std::rt::Files;

/// What a read found.
fn said_of_found(alloc: Global, found: Result<Found, FolderError>) -> Result<String, AllocError> {
    match found {
        Ok(Found::Bytes(bytes)) => format!(in alloc; "[{}]", shown(alloc, &bytes)?.as_str()),
        Ok(Found::Missing) => String::from_str(alloc, "missing"),
        Err(FolderError::Failed) => String::from_str(alloc, "failed"),
        Err(FolderError::Memory(error)) => Err(error),
    }
}

/// What each read found, and the count of faults. A read is the name of a file, `:`, and the most bytes that are wanted.
fn said_of_reads<F: Folder>(
    alloc: Global,
    folder: &mut F,
    reads: &str,
) -> Result<String, AllocError> {
    let mut said = String::new(alloc);
    for read in reads.split(' ') {
        let (name, most) = read.split_once(':').unwrap_or((read, ""));
        let found = folder.read(alloc, name, most.parse::<usize>().unwrap_or(0));
        said.push_str(said_of_found(alloc, found)?.as_str())?;
        said.push_str(", ")?;
    }
    said.push_str(format!(in alloc; "{} faults", folder.faults())?.as_str())?;
    Ok(said)
}

/// The reads of a folder in memory with the files `e`, `f` and `f` again.
pub fn said_of_memory(alloc: Global, failing: &[u64], reads: &str) -> Result<String, AllocError> {
    let mut files = Vec::new(alloc);
    for (name, content) in [("e", "x"), ("f", "abc"), ("f", "later")] {
        let bytes = Vec::from_slice(alloc, content.as_bytes())?;
        files.push((Text::of(alloc, name)?, bytes))?;
    }
    let mut folder = MemoryFolder::new(files, Vec::from_slice(alloc, failing)?);
    said_of_reads(alloc, &mut folder, reads)
}

/// The reads of the folder that the program runs in.
pub fn said_of_directory(
    rt: &impl Files,
    alloc: Global,
    reads: &str,
) -> Result<String, AllocError> {
    let mut folder = DirFolder::new(rt, Text::of(alloc, ".")?);
    said_of_reads(alloc, &mut folder, reads)
}

use fsm_base::Text;
use fsm_io::{DirFolder, Folder, Found, MemorySink, MemorySource};
use fsm_program::{Lane, run};
use row_texts::undone;
use std::alloc::{AllocError, Global};
use std::io;
use std::sync::Wait;
use std::thread::Threads;

/// A size that is more than any example needs.
const WHOLE: usize = 1_000_000;

/// The words of a command, which one space separates.
fn words_in(alloc: Global, command: &str) -> Result<Vec<String>, AllocError> {
    let mut words = Vec::new(alloc);
    for word in command.split(' ') {
        words.push(String::from_str(alloc, word)?)?;
    }
    Ok(words)
}

/// The bytes of a file; none where it can't be read.
pub fn content_of(rt: &HostRuntime, path: &str) -> io::Result<Vec<u8>> {
    let alloc = rt.alloc();
    let (folder, name) = path.rsplit_once('/').unwrap_or((".", path));
    let mut folder = DirFolder::new(rt, Text::of(alloc, folder)?);
    match folder.read(alloc, name, WHOLE) {
        Ok(Found::Bytes(bytes)) => Ok(bytes),
        Ok(Found::Missing) | Err(_) => Ok(Vec::new(alloc)),
    }
}

/// What the program writes for these words and this input. There are no lanes.
fn answer_of_program<T: Threads + Wait + Sync>(
    threads: &T,
    rt: &HostRuntime,
    words: &str,
    input: &str,
) -> io::Result<Vec<u8>> {
    let alloc = rt.alloc();
    let words = words_in(alloc, words)?;
    let path = match words.get(1) {
        Some(path) => Text::of(alloc, path.as_str())?,
        None => Text::of(alloc, ".")?,
    };
    let mut folder = DirFolder::new(rt, path);
    let mut source = MemorySource::new(undone(alloc, input)?, WHOLE, Vec::new(alloc));
    let mut sink = MemorySink::new(alloc, WHOLE, WHOLE, Vec::new(alloc))?;
    let lanes: &mut [Lane<MemorySource, MemorySink>] = &mut [];
    let _status = run(
        threads,
        alloc,
        &words,
        &mut folder,
        &mut source,
        &mut sink,
        lanes,
    );
    Ok(Vec::from_slice(alloc, sink.bytes())?)
}

/// The input that stands before a command, and the command.
fn split_input(line: &str) -> (&str, &str) {
    match line.strip_prefix("printf '") {
        Some(rest) => rest.split_once("' | ").unwrap_or(("", rest)),
        None => ("", line),
    }
}

/// What a command writes. One of another form writes nothing, and so does one with lanes.
pub fn answer_to<T: Threads + Wait + Sync>(
    threads: &T,
    rt: &HostRuntime,
    line: &str,
) -> io::Result<Vec<u8>> {
    let (input, command) = split_input(line);
    match command.split_once(' ') {
        Some(("cat", path)) => content_of(rt, path),
        Some(("./morph" | "./try", words)) if !words.contains(" -- ") => {
            answer_of_program(threads, rt, words, input)
        }
        _ => Ok(Vec::new(rt.alloc())),
    }
}

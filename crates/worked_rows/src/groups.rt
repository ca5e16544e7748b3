use crate::commands::content_of;
use std::io;
use std::thread::Threads;

/// What came of the trials of this name on the rows of its file.
pub fn said_of_trials<T: Threads + Sync>(
    threads: &T,
    rt: &HostRuntime,
    name: &str,
) -> io::Result<String> {
    let alloc = rt.alloc();
    let bytes = content_of(rt, format!(in alloc; "trials/{name}")?.as_str())?;
    let rows = std::str::from_utf8(&bytes).unwrap_or("");
    let said = match name {
        "att_texts" => att_trials::said_of_rows(alloc, rows),
        "builds" => build_trials::said_of_rows(threads, alloc, rows),
        "definitions" => reader_rows::said_of_rows(alloc, rows),
        "library" => library_example::examples(alloc),
        "networks" => network_trials::said_of_rows(alloc, rows),
        "texts" => text_trials::said_of_rows(rt, alloc, rows),
        _ => String::from_str(alloc, "no such trials\n"),
    };
    Ok(said?)
}

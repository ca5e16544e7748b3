use fsm_io::{Failed, MemorySink, Outbox, Sink, WriteSink, write_all};
use row_texts::shown;
use std::alloc::{AllocError, Global};

/// The most writes of a row.
const MOST_WRITES: usize = 20;

/// A sink in memory: its room, its piece and the calls that fail.
fn sink_of(
    alloc: Global,
    room: u64,
    piece: u64,
    failing: &[u64],
) -> Result<MemorySink, AllocError> {
    let room = usize::try_from(room).unwrap_or(0);
    let piece = usize::try_from(piece).unwrap_or(1).max(1);
    MemorySink::new(alloc, room, piece, Vec::from_slice(alloc, failing)?)
}

/// The sink of a row's numbers.
fn sink_of_row(alloc: Global, numbers: &[u64]) -> Result<MemorySink, AllocError> {
    match numbers {
        [room, piece, failing @ ..] => sink_of(alloc, *room, *piece, failing),
        _ => sink_of(alloc, 0, 1, &[]),
    }
}

fn outcome(written: Result<(), Failed>) -> &'static str {
    match written {
        Ok(()) => "ok",
        Err(Failed) => "failed",
    }
}

/// What a sink holds, and its count of faults.
fn said_of_sink(alloc: Global, sink: &MemorySink) -> Result<String, AllocError> {
    let held = shown(alloc, sink.bytes())?;
    format!(in alloc; "[{}], {} faults", held.as_str(), sink.faults())
}

/// How many bytes each write takes, until all are taken or a write fails.
pub fn said_of_writes(alloc: Global, numbers: &[u64], bytes: &[u8]) -> Result<String, AllocError> {
    let mut sink = sink_of_row(alloc, numbers)?;
    let mut said = String::new(alloc);
    let mut rest = bytes;
    for _ in 0..MOST_WRITES {
        if rest.is_empty() {
            break;
        }
        match sink.write(rest) {
            Ok(count) => {
                said.push_str(format!(in alloc; "{count}, ")?.as_str())?;
                rest = rest.get(count..).unwrap_or(&[]);
            }
            Err(Failed) => {
                said.push_str("failed, ")?;
                break;
            }
        }
    }
    said.push_str(said_of_sink(alloc, &sink)?.as_str())?;
    Ok(said)
}

/// Writes all in one call.
pub fn said_of_write_all(
    alloc: Global,
    numbers: &[u64],
    bytes: &[u8],
) -> Result<String, AllocError> {
    let mut sink = sink_of_row(alloc, numbers)?;
    let written = outcome(write_all(&mut sink, bytes));
    format!(in alloc; "{written}, {}", said_of_sink(alloc, &sink)?.as_str())
}

/// Writes all to a writer.
pub fn said_of_writer(alloc: Global, bytes: &[u8]) -> Result<String, AllocError> {
    let mut held = Vec::new(alloc);
    let mut sink = WriteSink::new(Some(&mut held));
    let written = outcome(write_all(&mut sink, bytes));
    let faults = sink.faults();
    format!(in alloc;
        "{written}, [{}], {faults} faults",
        shown(alloc, &held)?.as_str()
    )
}

/// Writes all where there is no writer.
pub fn said_of_no_writer(alloc: Global, bytes: &[u8]) -> Result<String, AllocError> {
    let mut sink: WriteSink<Vec<u8>> = WriteSink::new(None);
    let written = outcome(write_all(&mut sink, bytes));
    format!(in alloc; "{written}, {} faults", sink.faults())
}

/// Puts each step into an outbox and flushes it at `!`: how that went, what the sink holds then, and whether the outbox is
/// empty. The numbers are its room and the calls of the sink that fail.
pub fn said_of_outbox(alloc: Global, numbers: &[u64], steps: &str) -> Result<String, AllocError> {
    let [room, failing @ ..] = numbers else {
        return String::from_str(alloc, "no such row");
    };
    let mut sink = sink_of(alloc, 100, 1, failing)?;
    let mut outbox = Outbox::open(alloc, usize::try_from(*room).unwrap_or(0))?;
    let mut said = String::new(alloc);
    for step in steps.split(' ') {
        let done = take_step(&mut outbox, &mut sink, step);
        if !said.is_empty() {
            said.push_str("; ")?;
        }
        add_step(alloc, &mut said, outcome(done), &sink)?;
        if outbox.is_empty() {
            said.push_str(", empty")?;
        }
    }
    Ok(said)
}

/// Flushes an outbox, or puts a step into it.
fn take_step(outbox: &mut Outbox, sink: &mut MemorySink, step: &str) -> Result<(), Failed> {
    match step {
        "!" => outbox.flush(sink),
        _ => outbox.put(sink, step.as_bytes()),
    }
}

/// Adds how a step went, and what the sink holds then.
fn add_step(
    alloc: Global,
    said: &mut String,
    done: &str,
    sink: &MemorySink,
) -> Result<(), AllocError> {
    said.push_str(done)?;
    said.push_str(", ")?;
    said.push_str(said_of_sink(alloc, sink)?.as_str())
}

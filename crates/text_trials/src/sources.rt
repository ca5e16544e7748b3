use fsm_io::{LineEvent, Lines, MemorySource, ReadSource, Source};
use row_texts::shown;
use std::alloc::{AllocError, Global};

/// The longest line that is shown; of another one its length is.
const MOST_SHOWN: usize = 40;

/// What an event tells.
fn said_of_event(alloc: Global, lines: &Lines, event: LineEvent) -> Result<String, AllocError> {
    match event {
        LineEvent::Line if lines.text().len() > MOST_SHOWN => {
            format!(in alloc; "={} bytes", lines.text().len())
        }
        LineEvent::Line => format!(in alloc; "={}", shown(alloc, lines.text())?.as_str()),
        LineEvent::Long => String::from_str(alloc, "long"),
        LineEvent::End => String::from_str(alloc, "end"),
        LineEvent::Failed => String::from_str(alloc, "failed"),
        LineEvent::Over => String::from_str(alloc, "over"),
    }
}

/// The first events of a source's lines, each with `, then a whole line` where one is ahead then; and the count of
/// faults.
fn said_of_source<S: Source>(
    alloc: Global,
    source: &mut S,
    budget: u64,
    count: u64,
) -> Result<String, AllocError> {
    let mut lines = Lines::open(alloc, budget)?;
    let mut said = String::new(alloc);
    for _ in 0..count {
        let event = lines.next(source);
        said.push_str(said_of_event(alloc, &lines, event)?.as_str())?;
        said.push_str(if lines.is_ready() {
            ", then a whole line; "
        } else {
            "; "
        })?;
    }
    said.push_str(format!(in alloc; "{} faults", source.faults())?.as_str())?;
    Ok(said)
}

/// The events of a source in memory: its piece, its budget, the count of events, and the calls that fail.
pub fn said_of_lines(alloc: Global, numbers: &[u64], bytes: &[u8]) -> Result<String, AllocError> {
    let [piece, budget, count, failing @ ..] = numbers else {
        return String::from_str(alloc, "no such row");
    };
    let piece = usize::try_from(*piece).unwrap_or(1).max(1);
    let mut source = MemorySource::new(
        Vec::from_slice(alloc, bytes)?,
        piece,
        Vec::from_slice(alloc, failing)?,
    );
    said_of_source(alloc, &mut source, *budget, *count)
}

/// The events of a reader, or of none: their count.
pub fn said_of_reader(
    alloc: Global,
    numbers: &[u64],
    bytes: Option<&[u8]>,
) -> Result<String, AllocError> {
    let count = numbers.first().copied().unwrap_or(0);
    let mut source = ReadSource::new(bytes);
    said_of_source(alloc, &mut source, 1000, count)
}

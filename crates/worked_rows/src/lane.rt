use crate::numbers::{numbers, size};
use fsm_io::{MemorySink, MemorySource};
use fsm_program::Lane;
use row_texts::{shown, undone};
use std::alloc::{AllocError, Global};

/// A size that is more than any lane needs.
const WHOLE: usize = 100_000;

/// A lane in memory.
pub type MemoryLane = Lane<MemorySource, MemorySink>;

/// A lane of a row, and what is wanted of it.
#[derive(Drop)]
pub struct RowLane {
    /// The bytes of its input.
    input: Vec<u8>,
    /// Which call of its input and of its output fails, counted from 1; 0 for none.
    fails: [u64; 3],
    /// How many bytes the input gives at once, the output takes at once, and the output takes at all.
    sizes: [usize; 3],
    /// What its output may get, as it is shown.
    wanted: Vec<String>,
    /// How often its seat enters at least.
    enters: u64,
}

impl RowLane {
    /// A lane with this input, whose output is to get nothing.
    pub fn of(alloc: Global, value: &str) -> Result<RowLane, AllocError> {
        Ok(RowLane {
            input: undone(alloc, value)?,
            fails: [0; 3],
            sizes: [WHOLE; 3],
            wanted: Vec::new(alloc),
            enters: 0,
        })
    }

    /// Sets which call of its input and of its output fails.
    pub fn set_fails(&mut self, value: &str) {
        self.fails = numbers(value);
    }

    /// Sets how many bytes the input gives and the output takes at once, and how many the output takes at all.
    pub fn set_sizes(&mut self, value: &str) {
        let [read, write, room] = numbers(value);
        self.sizes = [size(read), size(write), size(room)];
    }

    /// Adds what its output may get.
    pub fn add_wanted(&mut self, alloc: Global, value: &str) -> Result<(), AllocError> {
        self.wanted.push(String::from_str(alloc, value)?)?;
        Ok(())
    }

    /// Sets how often its seat enters at least.
    pub fn set_enters(&mut self, value: &str) {
        self.enters = value.parse::<u64>().unwrap_or(u64::MAX);
    }

    /// The lane, of which nothing was answered.
    pub fn open(&self, alloc: Global) -> Result<MemoryLane, AllocError> {
        let source = MemorySource::new(
            Vec::from_slice(alloc, &self.input)?,
            self.sizes[0].max(1),
            Vec::from_slice(alloc, &[self.fails[0]])?,
        );
        let sink = MemorySink::new(
            alloc,
            self.sizes[2],
            self.sizes[1].max(1),
            Vec::from_slice(alloc, &[self.fails[1]])?,
        )?;
        Ok(Lane::new(source, sink))
    }

    /// Whether its output may get this.
    fn is_wanted(&self, got: &str) -> bool {
        let got = got.trim_ascii();
        if self.wanted.is_empty() {
            got.is_empty()
        } else {
            self.wanted
                .iter()
                .any(|wanted| wanted.as_str().trim_ascii() == got)
        }
    }

    /// What came of the lane, if it isn't as it wants to be.
    pub fn told(&self, alloc: Global, lane: &MemoryLane) -> Result<Option<String>, AllocError> {
        let got = shown(alloc, lane.sink.bytes())?;
        let entered = lane.entered();
        if self.is_wanted(got.as_str()) && entered >= self.enters {
            return Ok(None);
        }
        Ok(Some(format!(in alloc; "{}, entered {entered} times", got.as_str())?))
    }
}

ghost use Rattle.std.specs.Prelude.{◌≡◌};

use crate::watch::{INSIDE, LEFT, OUTSIDE, WORKED, Watch};
use parallel_build::{Gate, Job, run_level};
use std::alloc::{AllocError, Global};
use std::sync::Arc;
use std::thread;
use std::thread::Threads;

/// A job that gives its number.
#[derive(Drop)]
struct Numbered {
    name: u32,
    number: u64,
    /// How often it gives way to other threads before.
    turns: usize,
    watch: Arc<Watch>,
}

impl Job for Numbered {
    type Out = u64;

    ghost name_of = { λ job. job.name };

    ghost gives = { λ job number. number ≡ job.number };

    fn name(&self) -> u32 {
        self.name
    }

    fn work(self) -> u64 {
        for _ in 0..self.turns {
            thread::yield_now();
        }
        self.watch.goes(self.name, INSIDE, WORKED);
        self.number
    }
}

/// A gate that sees the jobs enter and leave.
#[derive(Drop)]
struct Watching(Arc<Watch>);

impl Gate for Watching {
    fn enter_job(&self, name: u32) {
        self.0.goes(name, OUTSIDE, INSIDE);
    }

    fn leave_job(&self, name: u32) {
        self.0.goes(name, WORKED, LEFT);
    }
}

/// The numbers of a text, or None where one of its words is none.
fn numbers_of(alloc: Global, text: &str) -> Result<Option<Vec<u64>>, AllocError> {
    let mut numbers = Vec::new(alloc);
    for word in text.split(' ') {
        if word.is_empty() {
            continue;
        }
        let Ok(number) = word.parse::<u64>() else {
            return Ok(None);
        };
        numbers.push(number)?;
    }
    Ok(Some(numbers))
}

/// A job for each number. The first ones take the most turns, so that they tend to end last.
fn jobs_of(
    alloc: Global,
    numbers: &[u64],
    watch: &Arc<Watch>,
) -> Result<Vec<Numbered>, AllocError> {
    let mut jobs = Vec::new(alloc);
    let mut name = 0u32;
    let mut turns = numbers.len().saturating_mul(1000);
    for number in numbers {
        jobs.push(Numbered {
            name,
            number: *number,
            turns,
            watch: Arc::try_clone(watch)?,
        })?;
        name = name.saturating_add(1);
        turns = turns.saturating_sub(1000);
    }
    Ok(jobs)
}

/// What jobs that give these numbers give, and whether each entered, worked and left. None where a word is no number.
pub fn said_of_level<R: Threads + Sync>(
    rt: &R,
    alloc: Global,
    text: &str,
) -> Result<Option<String>, AllocError> {
    let Some(numbers) = numbers_of(alloc, text)? else {
        return Ok(None);
    };
    let watch = Arc::new(alloc, Watch::new(alloc, numbers.len())?)?;
    let jobs = jobs_of(alloc, &numbers, &watch)?;
    let gate = Watching(Arc::try_clone(&watch)?);
    let results = run_level(rt, alloc, jobs, &gate)?;
    let order = if watch.all_left() {
        "each entered, worked and left"
    } else {
        "not each entered, worked and left"
    };
    Ok(Some(format!(in alloc; "results {results:?}, {order}")?))
}

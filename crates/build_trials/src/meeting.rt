ghost use Rattle.std.specs.Prelude.{◌≡◌};

use parallel_build::{Gate, Job, run_level};
use std::alloc::{AllocError, Global};
use std::sync::atomic::{AtomicBool, Ordering};
use std::thread;
use std::thread::Threads;

/// How many turns are waited at most. Each gives way to other threads.
const TURNS: u64 = 20_000_000;

/// The name of the job that is held.
const FIRST: u32 = 0;

/// The name of the job that it is held for.
const SECOND: u32 = 1;

/// A gate that holds the first job in `enter_job` until the second has entered, for so many turns.
#[derive(Drop)]
struct Meeting {
    /// Whether the second has entered.
    second: AtomicBool,
    /// Whether the first saw it.
    met: AtomicBool,
}

impl Meeting {
    /// A gate that none has entered.
    fn new() -> Meeting {
        Meeting {
            second: AtomicBool::new(false),
            met: AtomicBool::new(false),
        }
    }

    /// Waits until the second has entered, and returns whether it did within the turns.
    fn waits_for_second(&self) -> bool {
        'turns: for _ in 0..TURNS {
            if self.second.load(Ordering::SeqCst) {
                return true;
            }
            thread::yield_now();
        }
        false
    }
}

impl Gate for Meeting {
    fn enter_job(&self, name: u32) {
        match name {
            FIRST => self.met.store(self.waits_for_second(), Ordering::SeqCst),
            _ => self.second.store(true, Ordering::SeqCst),
        }
    }

    fn leave_job(&self, _name: u32) {}
}

/// A job that gives its name.
#[derive(Drop)]
struct Named(u32);

impl Job for Named {
    type Out = u32;

    ghost name_of = { λ job. job.0 };

    ghost gives = { λ job name. name ≡ job.0 };

    fn name(&self) -> u32 {
        self.0
    }

    fn work(self) -> u32 {
        self.0
    }
}

/// Two jobs, of which the first is held until the second has entered. Where jobs run one after another that doesn't come.
pub fn builds_go_beside<R: Threads + Sync>(rt: &R, alloc: Global) -> Result<String, AllocError> {
    let mut jobs = Vec::new(alloc);
    jobs.push(Named(FIRST))?;
    jobs.push(Named(SECOND))?;
    let gate = Meeting::new();
    let results = run_level(rt, alloc, jobs, &gate)?;
    let met = if gate.met.load(Ordering::SeqCst) {
        "the second entered while the first was entering"
    } else {
        "the second didn't enter while the first was entering"
    };
    format!(in alloc; "{met}, results {results:?}")
}

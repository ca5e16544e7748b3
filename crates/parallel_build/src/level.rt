ghost use Rattle.std.specs.Prelude.{IfOk};
ghost use Rattle.std.specs.List.{AllZip};

use crate::gate::Gate;
use crate::job::Job;
use std::alloc::{AllocError, Global};
use std::thread;
use std::thread::Threads;

/// How many jobs run at once at most.
const MOST_AT_ONCE: usize = 64;

/// The job enters, works and leaves.
fn run_job<J: Job, G: Gate>(job: J, gate: &G) -> J::Out
    ensures gives { J.gives job result }
    ensures left { G.left gate.now (J.name_of job) }
{
    let name = job.name();
    gate.enter_job(name);
    let out = job.work();
    gate.leave_job(name);
    out
}

/// The results of these jobs in their order, each of which runs in a thread of its own.
fn run_batch<R: Threads + Sync, J: Job, G: Gate>(
    rt: &R,
    jobs: Vec<J>,
    gate: &G,
) -> Result<Vec<J::Out>, AllocError>
    ensures { IfOk result (λ outs. AllZip (λ job out. J.gives job out × G.left gate.now (J.name_of job)) jobs.items outs.items) }
{
    thread::map_vec(
        rt,
        jobs,
        &|job: J| -> J::Out
            ensures { J.gives job result × G.left gate.entry.now (J.name_of job) }
        { run_job(job, gate) },
    )
}

/// The results of the jobs in their order, as one thread would give them. Each job works once, between entering the gate and leaving
/// it, in a thread of its own where one can be made. Up to 64 go at once, and more only when these are done. Where there is no
/// memory for a list of them or of their results, some may not run.
pub fn run_level<R: Threads + Sync, J: Job, G: Gate>(
    rt: &R,
    alloc: Global,
    jobs: Vec<J>,
    gate: &G,
) -> Result<Vec<J::Out>, AllocError>
    ensures { IfOk result (λ outs. AllZip (λ job out. J.gives job out × G.left gate.now (J.name_of job)) jobs.items outs.items) }
{
    let mut outs = Vec::with_capacity(alloc, jobs.len())?;
    let mut batch = jobs;
    'batches: while !batch.is_empty() {
        let later = batch.split_off(batch.len().min(MOST_AT_ONCE))?;
        let mut made = run_batch(rt, batch, gate)?;
        outs.append(&mut made)?;
        batch = later;
    }
    Ok(outs)
}

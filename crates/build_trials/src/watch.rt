use std::alloc::{AllocError, Global};
use std::sync::atomic::{AtomicU64, Ordering};

/// A job that hasn't entered.
pub const OUTSIDE: u64 = 0;

/// A job that has entered.
pub const INSIDE: u64 = 1;

/// A job that has worked.
pub const WORKED: u64 = 2;

/// A job that has left.
pub const LEFT: u64 = 3;

/// A job that did a step out of its order, or twice.
const WRONG: u64 = 4;

/// How far each of some jobs has come.
#[derive(Drop)]
pub struct Watch(Vec<AtomicU64>);

impl Watch {
    /// So many jobs that haven't entered.
    pub fn new(alloc: Global, jobs: usize) -> Result<Watch, AllocError> {
        let mut steps = Vec::new(alloc);
        for _ in 0..jobs {
            steps.push(AtomicU64::new(OUTSIDE))?;
        }
        Ok(Watch(steps))
    }

    /// The job of this name goes from here to there.
    pub fn goes(&self, name: u32, from: u64, to: u64) {
        if let Some(step) = self.0.get(name as usize) {
            let at = step.load(Ordering::SeqCst);
            step.store(if at == from { to } else { WRONG }, Ordering::SeqCst);
        }
    }

    /// Whether each job entered, worked and left, in this order and once.
    pub fn all_left(&self) -> bool {
        for step in &self.0 {
            if step.load(Ordering::SeqCst) != LEFT {
                return false;
            }
        }
        true
    }
}

use std::sync::atomic::{AtomicU64, Ordering};
use std::thread;

/// How many turns are waited at most. Each gives way to other threads.
const TURNS: u64 = 20_000_000;

/// A count that threads raise and wait for.
#[derive(Drop)]
pub struct Sign(AtomicU64);

impl Sign {
    /// A count of 0.
    pub fn new() -> Sign {
        Sign(AtomicU64::new(0))
    }

    /// Raises it by this much.
    pub fn raise(&self, by: u64) {
        self.0.fetch_add(by, Ordering::SeqCst);
    }

    /// Waits until it is at least this, and returns whether it came so far within the turns.
    pub fn has_come_to(&self, count: u64) -> bool {
        'turns: for _ in 0..TURNS {
            if self.0.load(Ordering::SeqCst) >= count {
                return true;
            }
            thread::yield_now();
        }
        false
    }
}

//! A line from which threads start together.
use std::hint::spin_loop;
use std::io;
use std::sync::atomic::{AtomicU64, Ordering};
use std::time::{Clock, Instant};

/// How often a thread looks whether the others have come.
const PATIENCE: u32 = 1 << 22;

/// A line from which so many threads start together, and how many have come to it and have left again.
#[derive(Drop)]
pub struct Line {
    threads: u64,
    made: Instant,
    came: AtomicU64,
    left: AtomicU64,
}

impl Line {
    /// A line for so many threads.
    pub fn make<R: Clock>(rt: &R, threads: u64) -> io::Result<Line> {
        Ok(Line {
            threads,
            made: Instant::now(rt)?,
            came: AtomicU64::new(0),
            left: AtomicU64::new(0),
        })
    }

    /// The nanoseconds since the line was made.
    pub fn nanos<R: Clock>(&self, rt: &R) -> io::Result<u128> {
        Ok(self.made.elapsed(rt)?.as_nanos())
    }

    /// Waits for the others, but not for ever: whether all have come.
    pub fn wait(&self) -> bool {
        self.came.fetch_add(1, Ordering::SeqCst);
        for _ in 0..PATIENCE {
            if self.came.load(Ordering::SeqCst) >= self.threads {
                return true;
            }
            spin_loop();
        }
        false
    }

    /// A thread has done its part.
    pub fn leave(&self) {
        self.left.fetch_add(1, Ordering::SeqCst);
    }

    /// Whether all but one have done their part.
    pub fn is_last(&self) -> bool {
        self.left.load(Ordering::SeqCst).wrapping_add(1) >= self.threads
    }
}

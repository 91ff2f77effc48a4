//! A bell, which wakes a sleeping thread.
use std::sync::Wait;
use std::sync::atomic::{AtomicU64, Ordering};
use std::time::Duration;

/// Counts its rings. A thread that sleeps passes the count that it has seen, so that it misses no ring. A ring wakes one thread.
#[derive(Drop)]
pub struct Bell {
    rings: AtomicU64,
}

impl Bell {
    /// A bell that was never rung.
    pub fn new() -> Self {
        Bell {
            rings: AtomicU64::new(0),
        }
    }

    /// The number of rings, modulo 2^32.
    pub fn rings(&self) -> u32 {
        (self.rings.load(Ordering::SeqCst) & 0xffff_ffff) as u32
    }

    /// Rings it once.
    pub fn ring(&self) {
        self.rings.fetch_add(1, Ordering::SeqCst);
        self.rings.wake_one();
    }

    /// Sleeps until the count of rings differs from `rings`, but at most for `most`. It may return earlier.
    pub fn sleep<R: Wait>(&self, rt: &R, rings: u32, most: Duration) {
        self.rings.park_timeout(rt, rings, most);
    }
}

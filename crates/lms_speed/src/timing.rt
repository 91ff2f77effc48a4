//! Measures how long an operation takes, in wall-clock time.
use std::io;
use std::num::nearest_u64_to_f64;
use std::time::{Clock, Duration, Instant};

/// An operation that can be repeated.
pub trait Work {
    /// Does the operation a fixed number of times, and returns that number.
    fn repeat(&mut self) -> io::Result<u64>;
}

/// Does the work for at least the given time, and at least once. Returns how many nanoseconds doing it once takes.
pub fn measure<C: Clock, W: Work>(clock: &C, work: &mut W, time: Duration) -> io::Result<f64> {
    let start = Instant::now(clock)?;
    let mut times = 0u64;
    let mut elapsed = Duration::ZERO;
    for _ in 0..u64::MAX {
        times = times.saturating_add(work.repeat()?);
        elapsed = start.elapsed(clock)?;
        if elapsed >= time {
            break;
        }
    }
    Ok(1e9 * elapsed.as_secs_f64() / nearest_u64_to_f64(times))
}

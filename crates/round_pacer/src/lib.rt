//! When rounds end: each lasts a base time, and a millisecond more than the one before it.
//!
//! The end of round r is due `r * base + r * (r + 1) / 2` milliseconds after the start. [`due`] returns how many round
//! ends are due by now, and [`until_due`] how long it is until the next. A [`Schedule`] does the same, and can begin anew.
#![tactic(auto)]

mod schedule;

ghost use Rattle.std.specs.Prelude.{◌≡◌, ◌≤◌, ◌<◌, ◌+◌, ◌-◌, ◌^◌, ℕ, min, nat_le};
ghost use Rattle.round_pacer.specs.Pacing.{due_at, max_due};

pub use schedule::Schedule;

/// The most round ends that one call of [`due`] counts.
pub const MAX_DUE: u32 = 1024;

/// The number of round ends after the first `ended` that are due at the time `now`, at most [`MAX_DUE`]. All times are
/// in milliseconds.
///
/// Allocates nothing, and takes at most 11 steps, however long the pause was.
pub fn due(start: u64, now: u64, base_ms: u32, ended: u32) -> u32
    ensures most { result ≤ max_due }
    // Each end that is counted is due.
    ensures due { (r : ℕ) → ended < r → r ≤ ended + result → due_at start base_ms r ≤ now }
    // No other one is due, unless [`MAX_DUE`] are counted.
    ensures rest { result < max_due → (r : ℕ) → ended + result < r → now < due_at start base_ms r }
{
    let mut low = 0;
    let mut high = MAX_DUE;
    while low < high {
        let middle = high - (high - low) / 2;
        if is_due(start, now, base_ms, u64::from(ended) + u64::from(middle)) {
            low = middle;
        } else {
            high = middle - 1;
        }
    }
    low
}

/// The milliseconds from `now` until the end of round `ended + 1` is due: 0 if it is due already, and at most 2^64 - 1.
pub fn until_due(start: u64, now: u64, base_ms: u32, ended: u32) -> u64
    ensures { result ≡ min (due_at start base_ms (ended + 1) - now) (2 ^ 64 - 1) }
{
    until(start, now, base_ms, u64::from(ended) + 1)
}

/// The milliseconds from `now` until the end of this round is due: 0 if it is due already, and at most 2^64 - 1.
fn until(start: u64, now: u64, base_ms: u32, round: u64) -> u64
    requires { round < 2 ^ 33 }
    ensures { result ≡ min (due_at start base_ms round - now) (2 ^ 64 - 1) }
{
    let due_at = due_at(start, base_ms, round);
    u64::try_from(due_at.saturating_sub(u128::from(now))).unwrap_or(u64::MAX)
}

/// When the end of this round is due.
fn due_at(start: u64, base_ms: u32, round: u64) -> u128
    requires { round < 2 ^ 33 }
    ensures { result ≡ due_at start base_ms round }
{
    let round = u128::from(round);
    u128::from(start) + round * u128::from(base_ms) + round * (round + 1) / 2
}

/// Whether the end of this round is due.
fn is_due(start: u64, now: u64, base_ms: u32, round: u64) -> bool
    requires { round < 2 ^ 33 }
    ensures { result ≡ nat_le (due_at start base_ms round) now }
{
    due_at(start, base_ms, round) <= u128::from(now)
}

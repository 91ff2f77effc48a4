//! Measures what an operation costs.
use crate::request::RateRequest;
use crate::timing::measure;
use crate::work::{Keys, OneBlockDigests};
use std::alloc::Global;
use std::io;
use std::time::{Clock, Duration, Instant};

/// What one block of SHA-256 and one operation take, in nanoseconds.
#[derive(Clone, Copy)]
pub struct Cost {
    pub block: f64,
    pub operation: f64,
}

/// The most slices that a time is cut into.
const SLICES: u32 = 8;

/// Measures a slice of blocks and a slice of an operation.
fn slice_cost<C: Clock>(clock: &C, keys: &mut Keys, slice: Duration) -> io::Result<Cost> {
    let mut digests = OneBlockDigests { block: [0; 55] };
    let block = measure(clock, &mut digests, slice)?;
    let operation = measure(clock, keys, slice)?;
    Ok(Cost { block, operation })
}

/// The least cost of a block and of an operation. Measures slices of both in turn, for at least `time` in all.
///
/// A machine that does other things too, or changes its pace, is slower at some moments and never faster.
pub fn measure_cost<C: Clock>(clock: &C, keys: &mut Keys, time: Duration) -> io::Result<Cost> {
    let start = Instant::now(clock)?;
    let slice = time / (2 * SLICES);
    let mut least = slice_cost(clock, keys, slice)?;
    for _ in 0..u64::MAX {
        if start.elapsed(clock)? >= time {
            break;
        }
        let cost = slice_cost(clock, keys, slice)?;
        least = Cost {
            block: least.block.min(cost.block),
            operation: least.operation.min(cost.operation),
        };
    }
    Ok(least)
}

/// Measures the nanoseconds of the operation that a request names.
fn measure_request<C: Clock>(clock: &C, alloc: Global, request: &RateRequest) -> io::Result<f64> {
    let time = Duration::from_millis(u64::from(request.milliseconds));
    let mut keys = Keys::new(alloc, request.params, request.operation)?;
    measure(clock, &mut keys, time)
}

/// The operations per second, as a request asks for them.
pub fn rate_text<C: Clock>(clock: &C, alloc: Global, request: &RateRequest) -> io::Result<String> {
    let rate = 1e9 / measure_request(clock, alloc, request)?;
    Ok(format!(in alloc; "{rate:.1}")?)
}

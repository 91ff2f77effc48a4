//! The signatures of a list of parts of frames, checked by several threads.
ghost use Rattle.std.specs.Prelude.{◌≡◌, ◌<◌, length, map, slice_index_or, IfOk};
ghost use Rattle.signed_frames.specs.Lending.{SignedPartView};
ghost use Rattle.verify_cache.specs.Checks.{is_part_signed};

use crate::gate::Gate;
use key_ring::KeyRing;
use signed_frames::SignedPart;
use std::alloc::{AllocError, Global};
use std::thread;
use std::thread::Threads;
use verify_cache::CheckSignatures;

/// The answer for the part at this place, between the two calls of the gate.
fn check_at<G: Gate>(ring: &KeyRing, parts: &[SignedPart<'_>], place: usize, gate: &G) -> bool
    requires { place < length parts.now }
    ensures { (part : SignedPartView) → result ≡ is_part_signed ring.now (slice_index_or parts.now place part) }
{
    gate.before(place);
    let mut checks = ring;
    let answer = checks.is_signed(&parts[place]);
    gate.after(place, answer);
    answer
}

/// Writes the answer for each part at the part's place.
fn write_answers<R: Threads + Sync, G: Gate + Sync>(
    rt: &R,
    ring: &KeyRing,
    parts: &[SignedPart<'_>],
    workers: usize,
    gate: &G,
    answers: &mut [bool],
)
    requires workers { 0 < workers }
    requires places { length answers.old ≡ length parts.now }
    ensures { answers.new ≡ map (is_part_signed ring.now) parts.now }
{
    thread::for_each_mut(
        rt,
        answers,
        workers,
        &|place, answer| *answer = check_at(ring, parts, place, gate),
    );
}

/// For each part of a frame, in the parts' order, whether its signature is valid under its signer's key, as
/// `KeyRing::verifies` answers; false if the ring has no key with that number.
///
/// At most `workers` threads share the parts evenly, and this thread is one of them: with fewer than two workers or
/// fewer than two parts it starts no thread. If the system makes no thread, this thread checks those parts, too. The
/// call returns when each thread has ended.
///
/// The only error is allocation failure, before any check.
pub fn verify_all<R: Threads + Sync, G: Gate + Sync>(
    rt: &R,
    alloc: Global,
    ring: &KeyRing,
    parts: &[SignedPart<'_>],
    workers: u8,
    gate: &G,
) -> Result<Vec<bool>, AllocError>
    ensures { IfOk result (λ answers. answers.items ≡ map (is_part_signed ring.now) parts.now) }
{
    let mut answers = vec![in alloc; false; parts.len()]?;
    let workers = usize::from(workers).max(1);
    write_answers(rt, ring, parts, workers, gate, answers.as_mut_slice());
    Ok(answers)
}

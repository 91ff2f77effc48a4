//! Which of the frames that arrived a replica reads in the round after the open one, and whether one is about a height.
ghost use Rattle.std.specs.Prelude.{◌≡◌, ◌<◌, ◌^◌, filter, IfOk};
ghost use Rattle.ledger_model.specs.Reading.{reading_in};
ghost use Rattle.replica_turns.specs.OwnEvents.{has_frame_about, is_about};
ghost use Rattle.replica_turns.specs.Rounds.{is_early, is_of_round};

use bytes::Bytes;
use ledger_model::{Height, Statement, Version, has_phase, has_place, place_of};
use signed_frames::Frame;
use statements::DecodeFault;
use std::alloc::{AllocError, Global};

/// Whether a replica reads the statement in this round, by its kind and its phase.
fn is_of_round(round: u64, statement: &Statement) -> bool
    requires { round < 2 ^ 33 }
    ensures { result ≡ is_of_round round statement.now }
{
    has_place(place_of(round), statement) && has_phase(round, statement)
}

/// The frame of this version that the bytes are, if they are one. The only error is allocation failure.
fn frame_in(version: Version, alloc: Global, bytes: &Bytes) -> Result<Option<Frame>, AllocError>
    ensures { IfOk result (λ frame. frame ≡ reading_in version bytes.now) }
{
    match Frame::parse_in(version, alloc, bytes.clone()?) {
        Ok(frame) => Ok(Some(frame)),
        Err(DecodeFault::Malformed) => Ok(None),
        Err(DecodeFault::NoMemory) => Err(AllocError),
    }
}

/// Whether the bytes are a frame of this version for the round after the open one, `clock`. The only error is allocation failure.
fn is_early(version: Version, alloc: Global, clock: u32, bytes: &Bytes) -> Result<bool, AllocError>
    ensures { IfOk result (λ early. early ≡ is_early clock (reading_in version bytes.now)) }
{
    match frame_in(version, alloc, bytes)? {
        Some(frame) => Ok(is_of_round(u64::from(clock) + 1, frame.statement())),
        None => Ok(false),
    }
}

/// The frames of this version for the round after the open one, in order. The only error is allocation failure.
pub fn early_of(
    version: Version,
    alloc: Global,
    clock: u32,
    frames: &[Bytes],
) -> Result<Vec<Bytes>, AllocError>
    ensures { IfOk result (λ early. early.items ≡ filter (λ bytes. is_early clock (reading_in version bytes)) frames.now) }
{
    let mut early = Vec::new(alloc);
    for frame in frames {
        if is_early(version, alloc, clock, frame)? {
            early.push(frame.clone()?)?;
        }
    }
    Ok(early)
}

/// Whether the bytes are a frame of this version about the height. The only error is allocation failure.
fn is_about(
    version: Version,
    alloc: Global,
    height: Height,
    bytes: &Bytes,
) -> Result<bool, AllocError>
    ensures { IfOk result (λ about. about ≡ is_about height (reading_in version bytes.now)) }
{
    match frame_in(version, alloc, bytes)? {
        Some(frame) => Ok(frame.statement().height() == height),
        None => Ok(false),
    }
}

/// Whether one of these byte strings is a frame of this version about the height. The only error is allocation failure.
pub(crate) fn has_frame_about(
    version: Version,
    alloc: Global,
    height: Height,
    frames: &[Bytes],
) -> Result<bool, AllocError>
    ensures { IfOk result (λ has. has ≡ has_frame_about version height frames.now) }
{
    for frame in frames {
        if is_about(version, alloc, height, frame)? {
            return Ok(true);
        }
    }
    Ok(false)
}

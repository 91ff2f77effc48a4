//! Splits the frames at the start of some bytes off.

ghost use Rattle.std.specs.Prelude.{◌++◌, IfOk, OnErr, ◌≡◌};
ghost use Rattle.signed_frames.specs.Reader.{StartsWith, Splits, ReadsOn};

use crate::{Frame, HEADER_LEN};
use bytes::{Bytes, BytesMut};
use ledger_model::Version;
use octets::Cursor;
use statements::DecodeFault;
use std::alloc::{AllocError, Global};

/// What follows the frames.
#[derive(Clone, Copy, Debug, PartialEq, Eq)]
pub enum End {
    /// Less than a whole frame.
    Partial,
    /// A length that no frame has.
    TooLong,
    /// A body that is complete and encodes nothing.
    Malformed,
}

/// What the bytes start with.
#[derive(Drop)]
pub enum Front {
    Whole(Frame),
    Ends(End),
}

/// Frames, the number of their bytes, and what follows them.
#[derive(Drop)]
pub struct Split {
    pub frames: Vec<Frame>,
    pub used: usize,
    pub end: End,
}

/// What the bytes start with, in frames of this version.
fn front_of(version: Version, alloc: Global, bytes: &[u8]) -> Result<Front, AllocError>
    ensures { IfOk result (λ front. StartsWith version bytes.now front) }
{
    let Ok(len) = Cursor::new(bytes).take_u32() else {
        return Ok(Front::Ends(End::Partial));
    };
    let len = len as usize;
    if len > version.body_limit() {
        return Ok(Front::Ends(End::TooLong));
    }
    if bytes.len() - HEADER_LEN < len {
        return Ok(Front::Ends(End::Partial));
    }
    let (frame, _) = bytes.split_at(HEADER_LEN + len);
    match Frame::parse_in(version, alloc, Bytes::copy_from_slice(alloc, frame)?) {
        Ok(frame) => Ok(Front::Whole(frame)),
        Err(DecodeFault::Malformed) => Ok(Front::Ends(End::Malformed)),
        Err(DecodeFault::NoMemory) => Err(AllocError),
    }
}

/// The frames that the bytes start with.
fn frames_of(version: Version, alloc: Global, bytes: &[u8]) -> Result<Split, AllocError>
    ensures { IfOk result (λ split. Splits version bytes.now split) }
{
    let mut frames = Vec::new(alloc);
    let mut used = 0;
    loop {
        let (_, rest) = bytes.split_at(used);
        match front_of(version, alloc, rest)? {
            Front::Whole(frame) => {
                used += frame.as_bytes().len();
                frames.push(frame)?;
            }
            Front::Ends(end) => return Ok(Split { frames, used, end }),
        }
    }
}

/// Appends a piece to the bytes that were kept, and splits off the frames that are complete now. An error changes nothing.
pub fn read_on(
    version: Version,
    kept: &mut BytesMut,
    piece: &[u8],
) -> Result<(Vec<Frame>, End), AllocError>
    ensures ok { IfOk result (λ x. ReadsOn version (kept.old.items ++ piece.now) x.0.items x.1 kept.new.items) }
    ensures err { OnErr result (kept.new.items ≡ kept.old.items) }
{
    let alloc = *kept.allocator();
    let kept_len = kept.len();
    kept.extend_from_slice(piece)?;
    match frames_of(version, alloc, kept.as_slice()) {
        Ok(Split { frames, used, end }) => {
            kept.advance(used);
            Ok((frames, end))
        }
        Err(error) => {
            kept.truncate(kept_len);
            Err(error)
        }
    }
}

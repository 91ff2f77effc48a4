//! The statements that frames encode.
ghost use Rattle.std.specs.Prelude.{◌≡◌, IfOk};
ghost use Rattle.run_picture.specs.Frames.{statement_in};

use bytes::Bytes;
use ledger_model::{Statement, Version};
use signed_frames::Frame;
use statements::DecodeFault;
use std::alloc::{AllocError, Global};

/// The statement that the bytes encode, if they are a frame. The only error is allocation failure.
pub(crate) fn statement_in(alloc: Global, bytes: &Bytes) -> Result<Option<Statement>, AllocError>
    ensures { IfOk result (λ statement. statement ≡ statement_in bytes.now) }
{
    match Frame::parse_in(Version::Two, alloc, bytes.clone()?) {
        Ok(frame) => Ok(Some(frame.into_statement())),
        Err(DecodeFault::Malformed) => Ok(None),
        Err(DecodeFault::NoMemory) => Err(AllocError),
    }
}

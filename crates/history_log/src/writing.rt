//! Appends records to a buffer: the only way in which a log changes.
ghost use Rattle.std.specs.Prelude.{◌≡◌, ◌+◌, ◌^◌, ◌<◌, ◌≤◌, ◌↔◌, ◌++◌, length, IfOk, IsErrOf, OnOk, OnErr, vec_len, vec_capacity};
ghost use Rattle.std.specs.Int.{w32, to_be_bytes};
ghost use Rattle.history_log.specs.Records.{max_content_len, tag_after, record_bytes};

use crate::fault::RecordFault;
use crate::tag::{TAG_LEN, Tag};
use std::alloc::AllocError;

/// The most bytes of a record's content.
pub const MAX_CONTENT_LEN: usize = 16_777_216;

/// The number of bytes of a record's length.
const LENGTH_LEN: usize = 4;

/// Appends a record with this content to `out`, and returns the record's tag. `tag` is that of the preceding record, or
/// of the header. Returns `TooLong` if the content has more than [`MAX_CONTENT_LEN`] bytes, and `NoMemory` if memory
/// ran out. An error changes no byte of `out`.
pub fn put_record(out: &mut Vec<u8>, tag: Tag, content: &[u8]) -> Result<Tag, RecordFault>
    ensures next { IfOk result (λ next. next ≡ tag_after tag content.now) }
    ensures ok { OnOk result (out.new.items ≡ out.old.items ++ record_bytes tag content.now) }
    ensures too_long { IsErrOf result RecordFault.TooLong ↔ (max_content_len < length content.now) }
    ensures err { OnErr result (out.new.items ≡ out.old.items) }
{
    if content.len() > MAX_CONTENT_LEN {
        return Err(RecordFault::TooLong);
    }
    let next = tag.after(content);
    put_parts(out, content, next.as_bytes())?;
    Ok(next)
}

/// Appends a length, a content and a tag. It reserves room for all of them first.
fn put_parts(out: &mut Vec<u8>, content: &[u8], tag: &[u8; 16]) -> Result<(), AllocError>
    requires { length content.now ≤ max_content_len }
    ensures ok { OnOk result
        (out.new.items ≡ out.old.items ++ (to_be_bytes w32 (length content.now) ++ content.now ++ tag.now)) }
    ensures err { OnErr result (out.new.items ≡ out.old.items) }
{
    out.reserve(LENGTH_LEN + content.len() + TAG_LEN)?;
    out.extend_from_slice(&(content.len() as u32).to_be_bytes())?;
    out.extend_from_slice(content)?;
    out.extend_from_slice(tag)
}

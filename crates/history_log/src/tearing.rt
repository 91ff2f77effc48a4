//! Whether bytes where no record begins are torn: a torn record may be cut off, and damaged bytes must not be.
ghost use Rattle.std.specs.Prelude.{◌≡◌, ℕ, ◌+◌, ◌≤◌, ◌↔◌, List, ◌++◌, length, take, IsTrue, All};
ghost use Rattle.sha2.specs.Hashers.{Holds256};
ghost use Rattle.sha2.specs.Sha256.{sha256};
ghost use Rattle.history_log.specs.Records.{HasTag, IsCutOff, IsTorn};

use crate::tag::{TAG_LEN, Tag};
use crate::writing::MAX_CONTENT_LEN;
use octets::Cursor;
use sha2::{Digest, Sha256};

/// Whether the bytes are torn: all of them are zero, or they are what a write leaves that was cut off.
pub(crate) fn is_torn(tag: Tag, bytes: &[u8]) -> bool
    ensures { IsTrue result ↔ IsTorn tag bytes.now }
{
    is_zero(bytes) || is_cut_off(tag, bytes)
}

/// Whether all of the bytes are zero.
fn is_zero(bytes: &[u8]) -> bool
    ensures { IsTrue result ↔ All (λ byte. byte ≡ 0) bytes.now }
{
    bytes.iter().all(|byte| *byte == 0)
}

/// Whether the bytes are what a write leaves that was cut off. Fewer than four bytes always are. Four bytes or more are
/// if they announce at most 2^24 content bytes, end within the announced record, and no length makes a record of them.
fn is_cut_off(tag: Tag, bytes: &[u8]) -> bool
    ensures { IsTrue result ↔ IsCutOff tag bytes.now }
{
    let mut cursor = Cursor::new(bytes);
    let Ok(announced) = cursor.take_u32() else {
        return true;
    };
    let len = announced as usize;
    if len > MAX_CONTENT_LEN {
        return false;
    }
    cursor.len() <= len + TAG_LEN && !has_tag(tag, cursor.rest())
}

/// Whether the bytes contain, after some prefix, the tag of that prefix. One hasher takes byte after byte, and a clone
/// of it is finished at each place.
fn has_tag(tag: Tag, bytes: &[u8]) -> bool
    ensures { IsTrue result ↔ HasTag tag bytes.now }
{
    let places = bytes
        .len()
        .saturating_sub(TAG_LEN - 1)
        .min(MAX_CONTENT_LEN + 1);
    let mut hasher = tag.hasher();
    for n in 0..places {
        if ends_with_tag(&hasher, &bytes[n..n + TAG_LEN]) {
            return true;
        }
        hasher.update(&bytes[n..n + 1]);
    }
    false
}

/// Whether these bytes are the tag of what the hasher has taken.
fn ends_with_tag(hasher: &Sha256, tag: &[u8]) -> bool
    ensures { (m : List ℕ) → Holds256 hasher.now m → (IsTrue result ↔ (tag.now ≡ take 16 (sha256 m))) }
{
    let digest = hasher.clone().unwrap().finalize();
    &digest[..TAG_LEN] == tag
}

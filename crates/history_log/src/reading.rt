//! Reads a log, part by part. Each part says how a reader goes on: with the next record, or at the log's end, or by
//! cutting a torn record off, or not at all.
ghost use Rattle.std.specs.Prelude.{◌≡◌, ◌≢◌, ◌<◌, ◌↔◌, [], length, IfSome, IfNone};
ghost use Rattle.history_log.specs.Parts.{IfRecord, IsEnd, OnTorn, OnDamaged, IsUnfinished};
ghost use Rattle.history_log.specs.Records.{tag_after, BeginsWithRecord, BeginsWithNoRecord, IsTorn};

use crate::tag::{TAG_LEN, Tag};
use crate::tearing::is_torn;
use crate::writing::MAX_CONTENT_LEN;
use octets::Cursor;

/// A record that was read: its content and its tag, and the bytes after it.
#[derive(Clone, Copy, Debug)]
pub struct Record<'a> {
    pub content: &'a [u8],
    pub tag: Tag,
    pub rest: &'a [u8],
}

/// The next part of a log. If bytes are left and no record begins there, they are torn or damaged. They are torn if all
/// of them are zero, if there are fewer than four, or if all of this holds:
///
/// - No record would begin there if the first four bytes announced another length. So it wasn't only the length that
///   was changed.
/// - The first four bytes announce at most 2^24 content bytes.
/// - The bytes end where the announced record would end, or before.
///
/// Otherwise they are damaged.
#[derive(Clone, Copy, Debug)]
pub enum LogPart<'a> {
    /// No byte is left: the log ends after a whole record, or after its header.
    End,
    /// A record.
    Record(Record<'a>),
    /// What a write left unfinished, by the rule above. The bytes may be cut off, and records appended in their place.
    Torn,
    /// Bytes that were changed, by the rule above. Good records may follow, so nothing may be cut off.
    Damaged,
}

/// The record that the bytes begin with. `tag` is that of the preceding record, or of the header.
fn first_record<'a>(tag: Tag, bytes: &'a [u8]) -> Option<Record<'a>>
    ensures found { IfSome result (λ r. BeginsWithRecord tag bytes.now r.content.now r.rest.now) }
    ensures tag { IfSome result (λ r. r.tag ≡ tag_after tag r.content.now) }
    ensures shorter { IfSome result (λ r. length r.rest.now < length bytes.now) }
    ensures none { IfNone result (BeginsWithNoRecord tag bytes.now) }
{
    let mut cursor = Cursor::new(bytes);
    let Ok(announced) = cursor.take_u32() else {
        return None;
    };
    let len = announced as usize;
    if len > MAX_CONTENT_LEN {
        return None;
    }
    let Ok(content) = cursor.take_bytes(len) else {
        return None;
    };
    let Ok(written) = cursor.take_bytes(TAG_LEN) else {
        return None;
    };
    let next = tag.after(content);
    if !next.matches(written) {
        return None;
    }
    Some(Record {
        content,
        tag: next,
        rest: cursor.rest(),
    })
}

/// The next part of a log of which these bytes are left. `tag` is that of the preceding record, or of the header.
///
/// If bytes are left and no record begins there, it returns `Torn` or `Damaged`. It returns `Torn` if all bytes are zero
/// or if there are fewer than four. It also returns `Torn` if the first four announce at most 2^24 content bytes, the
/// bytes end where the announced record would end or before, and with no other length would a record begin there.
/// Otherwise it returns `Damaged`.
///
/// It takes time linear in the bytes, hashes the content of a good record once, and allocates nothing.
pub fn read_record<'a>(tag: Tag, bytes: &'a [u8]) -> LogPart<'a>
    // The log ends where no byte is left.
    ensures end { IsEnd result ↔ (bytes.now ≡ []) }
    // The bytes begin with the record that is returned. They begin with no other: `laws::one_record`.
    ensures record { IfRecord result (λ r. BeginsWithRecord tag bytes.now r.content.now r.rest.now) }
    ensures tag { IfRecord result (λ r. r.tag ≡ tag_after tag r.content.now) }
    ensures shorter { IfRecord result (λ r. length r.rest.now < length bytes.now) }
    // Bytes are torn or damaged only where no record begins.
    ensures torn { OnTorn result (IsTorn tag bytes.now) }
    ensures torn_record { OnTorn result (BeginsWithNoRecord tag bytes.now) }
    ensures torn_bytes { OnTorn result (bytes.now ≢ []) }
    ensures damaged { OnDamaged result (¬ IsTorn tag bytes.now) }
    ensures damaged_record { OnDamaged result (BeginsWithNoRecord tag bytes.now) }
    ensures damaged_bytes { OnDamaged result (bytes.now ≢ []) }
{
    if bytes.is_empty() {
        return LogPart::End;
    }
    match first_record(tag, bytes) {
        Some(record) => LogPart::Record(record),
        None => unfinished(tag, bytes),
    }
}

/// Whether bytes where no record begins are torn or damaged.
fn unfinished<'a>(tag: Tag, bytes: &[u8]) -> LogPart<'a>
    ensures torn { OnTorn result (IsTorn tag bytes.now) }
    ensures damaged { OnDamaged result (¬ IsTorn tag bytes.now) }
    ensures either { IsUnfinished result }
{
    if is_torn(tag, bytes) {
        LogPart::Torn
    } else {
        LogPart::Damaged
    }
}

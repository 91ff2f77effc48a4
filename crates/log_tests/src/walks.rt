//! A walk over a log, record by record. Each test of a cut or changed log compares where the walk ends.
use crate::vectors::{CONTENTS, HEADER};
use history_log::{LogPart, Tag, read_record};

/// What follows the records.
#[derive(Clone, Copy, Debug, PartialEq, Eq)]
pub(crate) enum LogEnd {
    End,
    Torn,
    Damaged,
    /// A fourth record, or a record with another content.
    Stranger,
}

/// The number of records that the bytes begin with, after this header, and what follows them.
pub(crate) fn walk_after(header: &[u8], bytes: &[u8]) -> (usize, LogEnd) {
    let mut tag = Tag::first(header);
    let mut rest = bytes;
    for (index, content) in CONTENTS.iter().enumerate() {
        match read_record(tag, rest) {
            LogPart::End => return (index, LogEnd::End),
            LogPart::Torn => return (index, LogEnd::Torn),
            LogPart::Damaged => return (index, LogEnd::Damaged),
            LogPart::Record(record) => {
                if record.content != *content {
                    return (index, LogEnd::Stranger);
                }
                tag = record.tag;
                rest = record.rest;
            }
        }
    }
    (CONTENTS.len(), last_part(tag, rest))
}

/// What these bytes are, if no record.
fn last_part(tag: Tag, bytes: &[u8]) -> LogEnd {
    match read_record(tag, bytes) {
        LogPart::End => LogEnd::End,
        LogPart::Torn => LogEnd::Torn,
        LogPart::Damaged => LogEnd::Damaged,
        LogPart::Record(_) => LogEnd::Stranger,
    }
}

/// The same, after the header of the tests.
pub(crate) fn walk(bytes: &[u8]) -> (usize, LogEnd) {
    walk_after(HEADER, bytes)
}

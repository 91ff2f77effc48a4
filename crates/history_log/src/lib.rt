//! The bytes of a replica's log, written and read back. This crate opens no file, so contracts can name all its bytes.
//!
//! A log is a header and records. A record is the number of its content's bytes in four bytes, the content, and a tag
//! of 16 bytes. The tag is the first half of SHA-256 over the preceding record's tag and the content, so it depends on
//! all bytes before it. The first record's tag depends on [`Tag::first`] of the header in place of a preceding tag.
//! `specs/Records` defines the format, and `specs/RecordLaws` has the laws.
//!
//! [`put_record`] appends a record. [`read_record`] reads one record, or reports that the log ends there, ends with a
//! torn record, or is damaged. If bytes are left and no record begins there, the first of these rules that applies
//! decides:
//!
//! 1. If all bytes are zero, they are torn.
//! 2. If there are fewer than four bytes, they are torn.
//! 3. If a record would begin there with another length, the bytes are damaged: only the length was changed.
//! 4. If the first four bytes announce more than 2^24 content bytes, the bytes are damaged.
//! 5. If the bytes end where the announced record would end, or before, they are torn.
//! 6. All other bytes are damaged.
#![tactic(auto)]

mod fault;
pub mod laws;
mod reading;
mod tag;
mod tearing;
mod writing;

pub use fault::RecordFault;
pub use reading::{LogPart, Record, read_record};
pub use tag::Tag;
pub use writing::{MAX_CONTENT_LEN, put_record};

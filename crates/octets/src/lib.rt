//! Reads octets from the front of a slice, and appends octets to a vector. Numbers are big-endian.
#![tactic(auto)]

mod cursor;
mod writing;

pub use cursor::{Cursor, Short};
pub use writing::{put_bytes, put_u8, put_u16, put_u32};

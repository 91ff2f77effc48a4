//! Appends counts, of each its low bytes.
ghost use Rattle.std.specs.Prelude.{◌≡◌, ◌++◌, OnOk};
ghost use Rattle.history_bytes.specs.Histories.{count_in_1, count_in_2, count_in_4};

use octets::{put_u8, put_u16, put_u32};
use std::alloc::AllocError;

/// Appends a count in one byte.
pub(crate) fn put_count_1(out: &mut Vec<u8>, count: usize) -> Result<(), AllocError>
    ensures { OnOk result (out.new.items ≡ out.old.items ++ count_in_1 count) }
{
    put_u8(out, (count % 256) as u8)
}

/// Appends a count in two bytes.
pub(crate) fn put_count_2(out: &mut Vec<u8>, count: usize) -> Result<(), AllocError>
    ensures { OnOk result (out.new.items ≡ out.old.items ++ count_in_2 count) }
{
    put_u16(out, (count % 65_536) as u16)
}

/// Appends a count in four bytes.
pub(crate) fn put_count_4(out: &mut Vec<u8>, count: usize) -> Result<(), AllocError>
    ensures { OnOk result (out.new.items ≡ out.old.items ++ count_in_4 count) }
{
    put_u32(out, (count % 4_294_967_296) as u32)
}

//! The heights that a replica gives up as its floor rises.
ghost use Rattle.std.specs.Prelude.{◌≡◌, ◌-◌, ◌++◌, OnOk};
ghost use Rattle.std.specs.List.{range_with_len};
ghost use Rattle.run_picture.specs.Retiring.{retired_marks};

use crate::entry_facts::{Fact, Mark, add_mark};
use crate::part::Part;
use ledger_model::{Height, ReplicaId};
use std::alloc::AllocError;

/// Appends a mark for each height from `first` up to `end`, as far as the picture shows them.
pub(crate) fn add_heights(
    out: &mut Vec<Mark>,
    part: &Part,
    replica: ReplicaId,
    index: usize,
    clock: u64,
    first: u32,
    end: u32,
) -> Result<(), AllocError>
    ensures { OnOk result (out.new.items
        ≡ out.old.items ++ retired_marks part.now replica index clock (range_with_len first (end - first))) }
{
    for number in first..end {
        add_mark(
            out,
            part,
            replica,
            index,
            clock,
            Height::new(number),
            Fact::Retires,
        )?;
    }
    Ok(())
}

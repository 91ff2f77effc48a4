//! Bytes and texts to standard output, and texts of faults to standard error. A text is printed by one write if the writer takes it whole.
ghost use Rattle.std.specs.Prelude.{IfErr};
ghost use Rattle.std.specs.Io.KnownBytes.{Keeps};
ghost use Rattle.byte_streams.specs.Faults.{IsRefusalOf};
ghost use Rattle.byte_streams.specs.Writing.{Writes};

use crate::program_fault::ProgramFault;
use crate::resource::Resource;
use crate::write_whole;
use std::alloc::Global;
use std::fmt::Display;
use std::io::{self, Write};

/// The fault that standard output was refused.
fn no_output(error: io::Error) -> ProgramFault
    ensures { IsRefusalOf Resource.Output result }
{
    ProgramFault::Refused(Resource::Output, error)
}

/// Writes all of the bytes to standard output. After an error a prefix of them was written.
pub fn write_output<W: Write>(output: &mut W, bytes: &[u8]) -> Result<(), ProgramFault>
    ensures written { Writes result (W.contents output.old) (W.contents output.new) bytes.now }
    ensures fault { IfErr result (IsRefusalOf Resource.Output) }
{
    match write_whole(output, bytes) {
        Ok(()) => Ok(()),
        Err(error) => Err(no_output(error)),
    }
}

/// Flushes standard output.
pub fn flush_output<W: Write>(output: &mut W) -> Result<(), ProgramFault>
    ensures written { Keeps (W.contents output.old) (W.contents output.new) }
    ensures fault { IfErr result (IsRefusalOf Resource.Output) }
{
    match output.flush() {
        Ok(()) => Ok(()),
        Err(error) => Err(no_output(error)),
    }
}

/// Writes the text and the end of its last line to standard output.
pub fn print<W: Write, D: Display>(
    alloc: Global,
    output: &mut W,
    shown: &D,
) -> Result<(), ProgramFault> {
    let mut lines = format!(in alloc; "{shown}")?;
    if !lines.ends_with('\n') {
        lines.push('\n')?;
    }
    write_output(output, lines.as_bytes())
}

/// Writes a fault's text to standard error, if standard error takes it. Returns whether there was memory for the text; if not, the text
/// says so.
pub fn complain<F: Write, D: Display>(alloc: Global, errors: &mut F, fault: &D) -> bool {
    match print(alloc, errors, fault) {
        Err(ProgramFault::NoMemory) => {
            let _ = write_whole(errors, b"error: out of memory\n");
            false
        }
        _ => true,
    }
}

//! Prints the lines of `abft deliver`, each with one write if the writer takes it whole.
ghost use Rattle.std.specs.Prelude.{IfErr};
ghost use Rattle.byte_streams.specs.Faults.{IsMemoryOrAsked};
ghost use Rattle.program.specs.Lines.{line_bytes, last_line};
ghost use Rattle.byte_streams.specs.Writing.{Writes};

use crate::line::Line;
use crate::stream_end::StreamEnd;
use byte_streams::{ProgramFault, write_output};
use std::alloc::Global;
use std::io::Write;

/// Writes a line and a line feed.
pub(crate) fn print_line<W: Write>(
    alloc: Global,
    writer: &mut W,
    line: Line,
) -> Result<(), ProgramFault>
    ensures written { Writes result (W.contents writer.old) (W.contents writer.new) (line_bytes line) }
    ensures fault { IfErr result IsMemoryOrAsked }
{
    let Ok(text) = format!(in alloc; "{line}\n") else {
        return Err(ProgramFault::NoMemory);
    };
    write_output(writer, text.as_bytes())
}

/// Writes the line that reports what is wrong with the stream, if anything is.
pub(crate) fn print_end<W: Write>(
    alloc: Global,
    writer: &mut W,
    end: StreamEnd,
) -> Result<(), ProgramFault>
    ensures written { Writes result (W.contents writer.old) (W.contents writer.new) (last_line end) }
    ensures fault { IfErr result IsMemoryOrAsked }
{
    match end {
        StreamEnd::Whole => Ok(()),
        StreamEnd::Cut => print_line(alloc, writer, Line::Cut),
        StreamEnd::Fault(fault) => print_line(alloc, writer, Line::Fault(fault)),
    }
}

//! Writes lines, and flushes them at once.
use std::io::{self, Write};

/// Writes a text and an end of line.
pub fn write_line<W: Write>(writer: &mut W, text: &str) -> io::Result<()> {
    writeln!(writer, "{text}")?;
    writer.flush()
}

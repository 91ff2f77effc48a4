//! The lines of `abft deliver`: for frames, and for what is wrong with a stream.
ghost use Rattle.std.specs.Prelude.{◌≡◌, Some};
ghost use Rattle.program.specs.Lines.{line_of, line_text};

use crate::stream_end::StreamFault;
use ledger_model::Ignored;
use std::fmt;

/// A line of `abft deliver`.
#[derive(Clone, Copy, Debug, PartialEq, Eq)]
pub(crate) enum Line {
    /// The frame was read.
    Accepted,
    /// The frame was ignored.
    Ignored(Ignored),
    /// The bytes are no frame.
    Fault(StreamFault),
    /// The stream ends within a frame.
    Cut,
}

impl Line {
    /// The line for the reply to a frame.
    pub(crate) fn of(answer: Result<(), Ignored>) -> Line
        ensures { result ≡ line_of answer }
    {
        match answer {
            Ok(()) => Line::Accepted,
            Err(cause) => Line::Ignored(cause),
        }
    }
}

impl fmt::Display for Line {
    ghost output = { λ line. Some (line_text line) };

    fn fmt<W: fmt::Write>(&self, f: &mut fmt::Formatter<W>) -> fmt::Result {
        match self {
            Line::Accepted => write!(f, "accepted"),
            Line::Ignored(cause) => write!(f, "ignored {}", cause.text()),
            Line::Fault(StreamFault::TooLong) => write!(f, "fault 1 TooLong"),
            Line::Fault(StreamFault::Malformed) => write!(f, "fault 2 Malformed"),
            Line::Cut => write!(f, "cut"),
        }
    }
}

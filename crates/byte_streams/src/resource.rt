//! What the system gives the program, and may refuse.
use std::fmt;

/// What the system gives the program, and may refuse.
#[derive(Clone, Copy, Debug, PartialEq, Eq)]
pub enum Resource {
    /// Standard input.
    Input,
    /// Standard output.
    Output,
    /// Standard error.
    Errors,
    /// The words of the command line.
    Words,
    /// The clock.
    Clock,
    /// Random bytes.
    Random,
}

impl fmt::Display for Resource {
    fn fmt<W: fmt::Write>(&self, f: &mut fmt::Formatter<W>) -> fmt::Result {
        f.write_str(match self {
            Resource::Input => "standard input",
            Resource::Output => "standard output",
            Resource::Errors => "standard error",
            Resource::Words => "the words of the command line",
            Resource::Clock => "the clock",
            Resource::Random => "random bytes",
        })
    }
}

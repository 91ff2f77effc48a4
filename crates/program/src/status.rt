//! The exit statuses of what was done, and of words that are no command line.

/// Everything was done.
pub(crate) const DONE: u8 = 0;
/// The input was cut, or is no stream of frames, no scenario and no histories; an audit found a fault or a wrong receipt, or a picture a
/// history that is no replay.
pub(crate) const BAD_INPUT: u8 = 1;
/// The words are no command line, or name a file that is none of a cluster.
pub const BAD_USAGE: u8 = 2;

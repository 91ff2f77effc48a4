//! How a stream of frames ends.

/// What is wrong at the place where a frame should start.
#[derive(Clone, Copy, Debug, PartialEq, Eq)]
pub enum StreamFault {
    /// A length that no frame has.
    TooLong,
    /// A body that encodes nothing.
    Malformed,
}

/// What follows the last frame of a stream.
#[derive(Clone, Copy, Debug, PartialEq, Eq)]
pub enum StreamEnd {
    /// Nothing.
    Whole,
    /// Part of a frame.
    Cut,
    /// Bytes that no frame starts with.
    Fault(StreamFault),
}

//! Frames: a statement and its signature as bytes, one at a time and in a stream.
#![tactic(auto)]

mod fault;
mod frame;
pub mod laws;
mod lending;
mod parsing;
mod reader;
mod signed_part;
mod splitting;
mod unsigned;

pub use fault::FrameFault;
pub use frame::Frame;
pub use lending::LentReports;
pub use reader::FrameReader;
pub use signed_part::SignedPart;
pub use unsigned::UnsignedFrame;

/// The number of bytes of a body's length, which precedes the body.
const HEADER_LEN: usize = 4;

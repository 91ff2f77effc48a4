//! Results that an operation may never return. Each is an error of the kind `Other`, which no stream and no clock returns.
use std::io;

pub const ROOT: &str = "the public key is not the one of RFC 8554, Appendix F";

pub const CANDIDATE: &str = "a signature doesn't lead to the public value of its leaf";

pub const REFUSED: &str = "a signature doesn't verify";

pub const FORGED: &str = "a signature verifies for another message";

pub const EXHAUSTED: &str = "a key pair that is not used up doesn't sign";

/// The error that names what is wrong, if `holds` is false.
pub fn ensure(holds: bool, wrong: &str) -> io::Result<()> {
    if holds {
        Ok(())
    } else {
        Err(io::Error::other(wrong))
    }
}

//! Reads one request, and no byte after it.
ghost use Rattle.std.specs.Prelude.{◌≡◌, ◌<◌, ◌≤◌, ◌+◌, ◌^◌, length, MatchResult};
ghost use Rattle.std.specs.Int.{w16, to_be_bytes, from_be_bytes};
ghost use Rattle.client_sessions.specs.Faults.{failures_in};
ghost use Rattle.client_sessions.specs.Streams.{Receives, ReadsPart, EndsInput};

use crate::session_end::SessionEnd;
use crate::streams::SessionReader;
use crate::transfers::fill;
use std::io;

/// What was read next.
pub(crate) enum Received {
    /// A whole request, with the number of bytes of its body.
    Body(usize),
    /// The end of the input.
    End(SessionEnd),
}

/// How the input ended, after fewer bytes than a length has.
fn end_behind(bytes: &[u8]) -> SessionEnd
    requires { length bytes.now ≤ 1 }
    ensures { EndsInput result bytes.now }
{
    if bytes.is_empty() {
        SessionEnd::Clean
    } else {
        SessionEnd::Cut
    }
}

/// The length that the two bytes encode.
fn length_of(prefix: &[u8; 2]) -> usize
    ensures length { result ≡ from_be_bytes w16 prefix.now }
    ensures bytes { to_be_bytes w16 result ≡ prefix.now }
    ensures bound { result < 2 ^ 16 }
{
    usize::from(u16::from_be_bytes(*prefix))
}

/// Reads the next request, and its body into the buffer. Reads no further, so that a client can wait for the reply.
pub(crate) fn receive<R: SessionReader>(input: &mut R, buffer: &mut [u8]) -> io::Result<Received>
    requires { 65535 ≤ length buffer.old }
    ensures received { MatchResult result
        (λ received. Receives (R.remaining input.old) (R.remaining input.new) buffer.new received)
        (λ _. ReadsPart (R.remaining input.old) (R.remaining input.new)) }
    ensures counted { R.failures input.new ≡ R.failures input.old + failures_in result }
{
    let mut prefix = [0; 2];
    let count = fill(input, &mut prefix)?;
    if count < prefix.len() {
        return Ok(Received::End(end_behind(&prefix[..count])));
    }
    let len = length_of(&prefix);
    let count = fill(input, &mut buffer[..len])?;
    if count < len {
        return Ok(Received::End(SessionEnd::Cut));
    }
    Ok(Received::Body(len))
}

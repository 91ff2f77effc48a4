//! Reads the head of a request from a stream.
ghost use Rattle.std.specs.Prelude.{◌≡◌, ◌≢◌, ◌+◌, ◌<◌, Err, true, false, length, MatchResult, MatchOption};
ghost use Rattle.client_sessions.specs.Faults.{failures_in};
ghost use Rattle.http_messages.specs.Limits.{max_head_len};
ghost use Rattle.http_messages.specs.Requests.{AnswersHead};
ghost use Rattle.http_sessions.specs.Hearing.{AnswersRead, Hears, HearsNone, HearsPart};

use client_sessions::SessionReader;
use http_messages::{MAX_HEAD_LEN, Request, RequestFault, parse};
use std::alloc::Global;
use std::io;

/// Whether the bytes end within a head.
fn is_incomplete(asked: &Result<Request, RequestFault>) -> bool
    ensures yes { result ≡ true → asked.now ≡ Err RequestFault.Incomplete }
    ensures no { result ≡ false → asked.now ≢ Err RequestFault.Incomplete }
{
    match asked {
        Err(RequestFault::Incomplete) => true,
        _ => false,
    }
}

/// What bytes ask that were read. Of more than [`MAX_HEAD_LEN`] bytes the last may follow a head, so only the first are looked at; if these
/// end within a head, it is too long.
fn asked_in(alloc: Global, bytes: &[u8]) -> Result<Request, RequestFault>
    ensures answers { AnswersRead bytes.now result }
    ensures part { result ≡ Err RequestFault.Incomplete → AnswersHead bytes.now (Err RequestFault.Incomplete) }
{
    if bytes.len() <= MAX_HEAD_LEN {
        return parse(alloc, bytes);
    }
    let asked = parse(alloc, &bytes[..MAX_HEAD_LEN]);
    if is_incomplete(&asked) {
        return Err(RequestFault::TooLong);
    }
    asked
}

/// Reads into the buffer until its bytes are the head of a request or cannot become one, and returns what they ask; `None` if the input
/// ends without a byte. If it ends within a head, or the buffer is full, that is a fault of the request.
pub(crate) fn hear<R: SessionReader>(
    alloc: Global,
    input: &mut R,
    buffer: &mut [u8],
) -> io::Result<Option<Result<Request, RequestFault>>>
    requires { max_head_len < length buffer.old }
    ensures heard { MatchResult result
        (λ heard. MatchOption heard (HearsNone (R.remaining input.old) (R.remaining input.new))
        (λ asked. Hears (length buffer.old) (R.remaining input.old) (R.remaining input.new) asked))
        (λ _. HearsPart (length buffer.old) (R.remaining input.old) (R.remaining input.new)) }
    ensures counted { R.failures input.new ≡ R.failures input.old + failures_in result }
{
    let mut count = 0;
    while count < buffer.len() {
        let more = input.read(&mut buffer[count..])?;
        if more == 0 {
            return Ok(if count == 0 {
                None
            } else {
                Some(Err(RequestFault::Incomplete))
            });
        }
        count += more;
        let asked = asked_in(alloc, &buffer[..count]);
        if !is_incomplete(&asked) {
            return Ok(Some(asked));
        }
    }
    Ok(Some(Err(RequestFault::TooLong)))
}

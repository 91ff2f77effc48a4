//! Serves a session from its first request to its end.
ghost use Rattle.std.specs.Prelude.{◌≡◌, ◌<◌, ◌≤◌, ◌+◌, ◌^◌, length, vec_len, IfOk, IfErr, MatchResult};
ghost use Rattle.client_sessions.specs.Faults.{failures_in, read_failures_in, write_failures_in};
ghost use Rattle.client_sessions.specs.Serving.{HasEnded, RepliesToRequest, HasStopped};
ghost use Rattle.byte_streams.specs.Writing.{Writes};

use crate::receiving::{Received, receive};
use crate::reply_buffer::{MAX_BODY_LEN, ReplyBuffer};
use crate::request::Request;
use crate::session::Session;
use crate::session_end::{SessionEnd, SessionFault};
use crate::streams::{SessionReader, SessionWriter};
use crate::targets::Targets;
use std::alloc::{AllocError, Global};
use std::io;

/// The buffers for the body of a request, and for a reply.
fn buffers(alloc: Global) -> Result<(Vec<u8>, ReplyBuffer), AllocError>
    ensures { IfOk result (λ made. vec_len made.0 ≡ 65535) }
{
    let body = Vec::from_elem(alloc, 0, MAX_BODY_LEN)?;
    let reply = ReplyBuffer::new(alloc)?;
    Ok((body, reply))
}

/// Serves the request with this body, and sends its reply.
fn reply_to<W: SessionWriter, T: Targets>(
    body: &[u8],
    output: &mut W,
    session: &mut Session,
    targets: &mut T,
    reply: &mut ReplyBuffer,
) -> io::Result<()>
    requires { session.old.replica < T.replicas targets.old }
    ensures replies { RepliesToRequest T.asks (T.replicas targets.old) targets.old targets.new session.old body.now session.new
        (Writes result (W.contents output.old) (W.contents output.new)) }
    ensures counted { W.failures output.new ≡ W.failures output.old + failures_in result }
    ensures never_falls { session.old.greatest ≤ session.new.greatest }
    ensures known { session.new.replica < T.replicas targets.new }
    ensures count { T.replicas targets.new ≡ T.replicas targets.old }
{
    let answer = session.answer(targets, Request::parse(body));
    reply.put_answer(&answer);
    reply.send(output)
}

/// Serves the requests one after the other.
fn serve_all<R: SessionReader, W: SessionWriter, T: Targets>(
    input: &mut R,
    output: &mut W,
    session: &mut Session,
    targets: &mut T,
    buffer: &mut [u8],
    reply: &mut ReplyBuffer,
) -> Result<SessionEnd, SessionFault>
    requires known { session.old.replica < T.replicas targets.old }
    requires room { 65535 ≤ length buffer.old }
    ensures served { MatchResult result
        (λ end. HasEnded T.asks (T.replicas targets.old) targets.old targets.new session.old session.new
        (R.remaining input.old) (R.remaining input.new) (W.contents output.old) (W.contents output.new) end)
        (λ fault. HasStopped T.asks (T.replicas targets.old) targets.old targets.new session.old session.new
        (R.remaining input.old) (R.remaining input.new) (W.contents output.old) (W.contents output.new) fault) }
    ensures never_falls { session.old.greatest ≤ session.new.greatest }
    ensures known { session.new.replica < T.replicas targets.new }
    ensures count { T.replicas targets.new ≡ T.replicas targets.old }
    ensures reader { R.failures input.new ≡ R.failures input.old + read_failures_in result }
    ensures writer { W.failures output.new ≡ W.failures output.old + write_failures_in result }
{
    for _served in 0..u64::MAX {
        match receive(input, buffer) {
            Ok(Received::End(end)) => return Ok(end),
            Ok(Received::Body(len)) => {
                match reply_to(&buffer[..len], output, session, targets, reply) {
                    Ok(()) => {}
                    Err(error) => return Err(SessionFault::Write(error)),
                }
            }
            Err(error) => return Err(SessionFault::Read(error)),
        }
    }
    Err(SessionFault::TooMany)
}

/// Serves a session over a reader and a writer. Sends one reply to each request as soon as the whole request was read,
/// and reads nothing beyond the request that it serves next. The first failure of a stream ends the session.
pub fn serve<R: SessionReader, W: SessionWriter, T: Targets>(
    alloc: Global,
    input: &mut R,
    output: &mut W,
    session: &mut Session,
    targets: &mut T,
) -> Result<SessionEnd, SessionFault>
    requires { session.old.replica < T.replicas targets.old }
    // All requests were served, and the input has ended: it was these whole requests, followed by part of one if it ended as `Cut`.
    ensures ends { IfOk result (λ end. HasEnded T.asks (T.replicas targets.old) targets.old targets.new session.old session.new
        (R.remaining input.old) (R.remaining input.new) (W.contents output.old) (W.contents output.new) end) }
    // The first requests were served, up to the fault; if memory ran out, none were.
    ensures stops { IfErr result (λ fault. HasStopped T.asks (T.replicas targets.old) targets.old targets.new session.old session.new
        (R.remaining input.old) (R.remaining input.new) (W.contents output.old) (W.contents output.new) fault) }
    // The heights that this client got never fall.
    ensures never_falls { session.old.greatest ≤ session.new.greatest }
    ensures known { session.new.replica < T.replicas targets.new }
    ensures count { T.replicas targets.new ≡ T.replicas targets.old }
    // If a read's fault ended the session, the reader failed exactly once in this call, and otherwise never; likewise the writer.
    ensures reader { R.failures input.new ≡ R.failures input.old + read_failures_in result }
    ensures writer { W.failures output.new ≡ W.failures output.old + write_failures_in result }
{
    let (mut buffer, mut reply) = buffers(alloc)?;
    serve_all(input, output, session, targets, &mut buffer, &mut reply)
}

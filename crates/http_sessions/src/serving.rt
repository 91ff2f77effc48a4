//! Serves a connection: one request, and its reply.
ghost use Rattle.std.specs.Prelude.{◌≡◌, ◌+◌, IfOk, IfErr, MatchResult};
ghost use Rattle.std.specs.Io.KnownBytes.{Appends};
ghost use Rattle.byte_streams.specs.Writing.{AppendsSome};
ghost use Rattle.client_sessions.specs.Faults.{failures_in};
ghost use Rattle.http_sessions.specs.Exchanges.{Makes};
ghost use Rattle.http_sessions.specs.Serving.{RespondsTo, EndsConnection, Stops, connection_read_failures, connection_write_failures};
ghost use Rattle.http_sessions.specs.declared.request_end.RequestEnd.{RequestEnd as End};

use crate::answering::answer;
use crate::hearing::hear;
use crate::request_end::{ConnectionFault, RequestEnd};
use crate::targets::HttpTargets;
use client_sessions::{SessionReader, SessionWriter, send};
use http_messages::{MAX_HEAD_LEN, Request, RequestFault, out_of_memory_reply};
use std::alloc::Global;
use std::io;

/// The most bytes that are read of a request: one more than its head may have.
const MOST_READ: usize = MAX_HEAD_LEN + 1;

/// Answers what was asked, and sends the reply.
fn respond<W: SessionWriter, T: HttpTargets>(
    alloc: Global,
    asked: &Result<Request, RequestFault>,
    output: &mut W,
    targets: &mut T,
) -> io::Result<RequestEnd>
    ensures responds { MatchResult result
        (λ end. RespondsTo (Makes T.asks T.inquires) (T.replicas targets.old) targets.old targets.new asked.now end
        (Appends (W.contents output.old) (W.contents output.new)))
        (λ _. (end : End) × RespondsTo (Makes T.asks T.inquires) (T.replicas targets.old) targets.old targets.new asked.now end
        (AppendsSome (W.contents output.old) (W.contents output.new))) }
    ensures counted { W.failures output.new ≡ W.failures output.old + failures_in result }
    ensures count { T.replicas targets.new ≡ T.replicas targets.old }
{
    match answer(alloc, asked, targets) {
        Ok(reply) => {
            send(output, &reply)?;
            Ok(RequestEnd::Answered)
        }
        Err(_) => {
            send(output, out_of_memory_reply())?;
            Ok(RequestEnd::OutOfMemory)
        }
    }
}

/// Serves a connection: reads one request, answers it by what the replicas answer, and writes and flushes the whole reply. Bytes after the
/// head are not used. A client that closes its side without a byte gets no reply.
pub fn serve_request<R: SessionReader, W: SessionWriter, T: HttpTargets>(
    alloc: Global,
    input: &mut R,
    output: &mut W,
    targets: &mut T,
) -> Result<RequestEnd, ConnectionFault>
    // A request was read, the exchanges are those by which it is answered, and the reply was written; or nothing came.
    ensures ends { IfOk result (λ end. EndsConnection (Makes T.asks T.inquires) (T.replicas targets.old) targets.old targets.new
        (R.remaining input.old) (R.remaining input.new) (W.contents output.old) (W.contents output.new) end) }
    // Less than a request was read, and nothing asked; or a request was answered, and a prefix of the reply written.
    ensures stops { IfErr result (λ fault. Stops (Makes T.asks T.inquires) (T.replicas targets.old) targets.old targets.new
        (R.remaining input.old) (R.remaining input.new) (W.contents output.old) (W.contents output.new) fault) }
    ensures count { T.replicas targets.new ≡ T.replicas targets.old }
    // If a read's fault ended the connection, the reader failed exactly once in this call, and otherwise never; likewise the writer.
    ensures reader { R.failures input.new ≡ R.failures input.old + connection_read_failures result }
    ensures writer { W.failures output.new ≡ W.failures output.old + connection_write_failures result }
{
    let mut buffer = [0; MOST_READ];
    match hear(alloc, input, &mut buffer) {
        Ok(Some(asked)) => match respond(alloc, &asked, output, targets) {
            Ok(end) => Ok(end),
            Err(error) => Err(ConnectionFault::Write(error)),
        },
        Ok(None) => Ok(RequestEnd::Silent),
        Err(error) => Err(ConnectionFault::Read(error)),
    }
}

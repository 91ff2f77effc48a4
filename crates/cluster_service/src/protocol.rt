//! What a server speaks with its clients, and how it serves a connection.
use crate::live_targets::LiveTargets;
use abci::Application;
use client_sessions::{CountedStream, Session, serve};
use http_sessions::serve_request;
use std::alloc::Global;
use std::io::Read;
use std::net::{Shutdown, TcpStream};
use std::sync::Wait;
use std::time::Clock;

/// The look after which a client of HTTP can send no more: what it has sent in two seconds is its request.
const HEAD_LOOKS: u32 = 40;

/// The look after which a connection of HTTP is closed: 95 seconds, so that a wait for a block can end before.
const MOST_LOOKS: u32 = 1900;

/// After how many looks HTTP closes the connections that are still open, once it is to end.
const GRACE_LOOKS: u32 = 10;

/// The most bytes that are read at once of what a client sends after its request.
const PIECE_LEN: usize = 4096;

/// The most reads of what a client sends after its request.
const MOST_PIECES: u32 = 1024;

/// What a server speaks with its clients.
#[derive(Clone, Copy)]
pub enum Protocol {
    /// Sessions of the binary protocol, without a limit of time. Each connection uses its seat up, and the server ends with its last seat.
    Sessions,
    /// One request of HTTP and its reply. A connection frees its seat for the next one.
    Http,
}

impl Protocol {
    /// Whether a connection frees its seat at its end. If not, it uses the seat up.
    pub(crate) fn frees_seats(self) -> bool {
        match self {
            Protocol::Sessions => false,
            Protocol::Http => true,
        }
    }

    /// What is shut at a look, from 1 on, at an open connection: of HTTP first what the client sends, and at last what it receives, too.
    pub(crate) fn shut_at(self, look: u32) -> Option<Shutdown> {
        match self {
            Protocol::Sessions => None,
            Protocol::Http if look >= MOST_LOOKS => Some(Shutdown::Both),
            Protocol::Http if look == HEAD_LOOKS => Some(Shutdown::Read),
            Protocol::Http => None,
        }
    }

    /// After how many looks the connections that are still open are closed, once the server is to end.
    pub(crate) fn grace_looks(self) -> u32 {
        match self {
            Protocol::Sessions => 0,
            Protocol::Http => GRACE_LOOKS,
        }
    }
}

/// Reads what the client still sends, until it closes its side or the door does. A stream that is closed with bytes unread may lose the
/// reply.
fn linger(stream: &TcpStream) {
    let _ = stream.shutdown(Shutdown::Write);
    let mut input = stream;
    let mut piece = [0; PIECE_LEN];
    for _ in 0..MOST_PIECES {
        match input.read(&mut piece) {
            Ok(0) | Err(_) => break,
            Ok(_) => {}
        }
    }
}

/// Serves a session until it ends, for whatever reason.
fn serve_session<A: Application, R: Wait>(
    alloc: Global,
    stream: &TcpStream,
    targets: &mut LiveTargets<'_, A, R>,
) {
    let mut input = CountedStream::new(stream);
    let mut output = CountedStream::new(stream);
    let mut session = Session::new();
    let _ = serve(alloc, &mut input, &mut output, &mut session, targets);
}

/// Serves one request of HTTP, for whatever result.
fn serve_http<A: Application, R: Clock + Wait>(
    alloc: Global,
    stream: &TcpStream,
    targets: &mut LiveTargets<'_, A, R>,
) {
    let mut input = CountedStream::new(stream);
    let mut output = CountedStream::new(stream);
    let _ = serve_request(alloc, &mut input, &mut output, targets);
    linger(stream);
}

/// Serves a connection until it ends.
pub(crate) fn serve_stream<A: Application, R: Clock + Wait>(
    alloc: Global,
    protocol: Protocol,
    stream: &TcpStream,
    targets: &mut LiveTargets<'_, A, R>,
) {
    let _ = stream.set_nodelay(true);
    match protocol {
        Protocol::Sessions => serve_session(alloc, stream, targets),
        Protocol::Http => serve_http(alloc, stream, targets),
    }
}

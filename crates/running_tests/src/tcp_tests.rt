//! A client session over TCP on 127.0.0.1, with the server and the client in two threads of one test.
use crate::session_targets::Fake;
use crate::session_tests::{End, ends};
use std::alloc::Global;
use std::io::{self, Read, Write};
use std::net::{Ipv4Addr, Net, TcpListener, TcpStream};
use std::test::Fail;
use std::thread;
use std::thread::Threads;

/// A request of four bytes, of which the last two are missing.
const CUT_REQUEST: &[u8] = b"\x00\x04\x01a";

/// A request for the height, and the reply of a replica at height 3.
const REQUEST: &[u8] = b"\x00\x01\x03";

const REPLY: &[u8; 7] = b"\x00\x05\x00\x00\x00\x00\x03";

/// Serves the next client of the listener, and returns how its session ended.
fn serves_next(alloc: Global, listener: &TcpListener, targets: &mut Fake) -> io::Result<End> {
    let (stream, _) = listener.accept()?;
    let (mut input, mut output) = (&stream, &stream);
    Ok(ends(alloc, &mut input, &mut output, targets))
}

/// Serves two clients, one after the other. Returns how their sessions ended, and how many calls reached a replica by then.
fn serves_two(alloc: Global, listener: &TcpListener) -> io::Result<[(End, u32); 2]> {
    let mut targets = Fake::new(alloc, [3, 3, 1, 3]);
    let first = serves_next(alloc, listener, &mut targets)?;
    let asked = targets.asked();
    let second = serves_next(alloc, listener, &mut targets)?;
    Ok([(first, asked), (second, targets.asked())])
}

/// Closes the connection after a prefix of a request.
fn closes_early<R: Net<Stream = TcpStream>>(rt: &R, port: u16) -> io::Result<()> {
    let mut stream = TcpStream::connect(rt, (Ipv4Addr::LOCALHOST, port))?;
    stream.write_all(CUT_REQUEST)
}

/// Asks for the height, and returns the reply.
fn asks<R: Net<Stream = TcpStream>>(rt: &R, port: u16) -> io::Result<[u8; 7]> {
    let mut stream = TcpStream::connect(rt, (Ipv4Addr::LOCALHOST, port))?;
    stream.write_all(REQUEST)?;
    let mut reply = [0; 7];
    stream.read_exact(&mut reply)?;
    Ok(reply)
}

/// Two clients, one after the other: one closes in the middle of a request, the other gets its reply.
fn is_answered<R: Net<Stream = TcpStream>>(rt: &R, port: u16) -> io::Result<bool> {
    closes_early(rt, port)?;
    Ok(asks(rt, port)? == *REPLY)
}

#[test]
fn a_client_that_closes_in_mid_request_is_followed_by_the_next(
    rt: HostRuntime,
) -> Result<(), Fail> {
    let alloc = rt.alloc();
    let listener = TcpListener::bind(&rt, (Ipv4Addr::LOCALHOST, 0))?;
    let port = listener.local_addr()?.port();
    let (listener, handle) = (&listener, &rt);
    let (served, answered) = thread::join(
        &rt,
        move || serves_two(alloc, listener),
        move || is_answered(handle, port),
    );
    let [(first, asked_by_first), second] = served?;
    assert!(rt; matches!(first, End::Cut | End::Read) && asked_by_first == 0);
    assert!(rt; second == (End::Clean, 1) && answered?);
    Ok(())
}

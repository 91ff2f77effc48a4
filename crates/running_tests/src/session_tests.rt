//! Client sessions over streams in memory, byte by byte, cut and failing.
ghost use Rattle.std.specs.Prelude.{◌≡◌, ◌+◌};
ghost use Rattle.client_sessions.specs.Faults.{read_failures_in, write_failures_in};

use crate::session_streams::{FailingReader, FailingWriter};
use crate::session_targets::{Fake, Submitted};
use client_sessions::{
    CountedStream, Session, SessionEnd, SessionFault, SessionReader, SessionWriter, serve,
};
use ledger_model::{ApplyFault, SubmitRefusal};
use std::alloc::Global;
use std::io::{Read, Write};
use std::test::Fail;

/// Four requests: a transaction, the height, a replica that doesn't exist, and a body that is no request.
const REQUESTS: &[u8] = b"\x00\x04\x01a=1\x00\x01\x03\x00\x02\x05\x04\x00\x01\x09";

/// The replies to them, if the height is 3 and the transaction is entry 0.
const REPLIES: &[u8] =
    b"\x00\x06\x00\x00\x00\x00\x00\x00\x00\x05\x00\x00\x00\x00\x03\x00\x01\x05\x00\x01\x01";

/// The requests of one session, and their replies, if replicas 0, 1 and 3 are at height 3 and replica 2 is at height 1.
const CASES: [(&[u8], &[u8]); 20] = [
    (b"", b""),
    (b"\x00\x04\x01a=1", b"\x00\x06\x00\x00\x00\x00\x00\x00"),
    (b"\x00\x01\x01", b"\x00\x06\x00\x00\x00\x00\x00\x00"),
    (b"\x00\x00", b"\x00\x01\x01"),
    (b"\x00\x01\x09", b"\x00\x01\x01"),
    (b"\x00\x01\x03", b"\x00\x05\x00\x00\x00\x00\x03"),
    (b"\x00\x02\x03\x00", b"\x00\x01\x01"),
    (b"\x00\x02\x05\x04", b"\x00\x01\x05"),
    (b"\x00\x02\x05\x03", b"\x00\x01\x00"),
    (b"\x00\x03\x05\x03\x03", b"\x00\x01\x01"),
    (b"\x00\x04\x02\x00\x00\x00", b"\x00\x01\x01"),
    (
        b"\x00\x06\x02\x00\x00\x00\x03a",
        b"\x00\x07\x00\x00\x00\x00\x03\x011",
    ),
    (
        b"\x00\x06\x02\x00\x00\x00\x03b",
        b"\x00\x06\x00\x00\x00\x00\x03\x00",
    ),
    (b"\x00\x06\x02\x00\x00\x00\x04a", b"\x00\x01\x02"),
    (b"\x00\x05\x04\x00\x00\x00\x00", b"\x00\x01\x03"),
    (b"\x00\x05\x04\x00\x00\x00\x04", b"\x00\x01\x03"),
    (
        b"\x00\x05\x04\x00\x00\x00\x03",
        b"\x00\x0a\x00\x00\x00\x00\x03\x01\x03a=1",
    ),
    // Replica 2 is at height 1, and the client has seen height 3.
    (
        b"\x00\x01\x03\x00\x02\x05\x02\x00\x01\x03",
        b"\x00\x05\x00\x00\x00\x00\x03\x00\x01\x00\x00\x01\x02",
    ),
    (
        b"\x00\x02\x05\x02\x00\x06\x02\x00\x00\x00\x03a",
        b"\x00\x01\x00\x00\x01\x02",
    ),
    (REQUESTS, REPLIES),
];

/// The answer to a submit, and the reply.
const SUBMITTED: [(Submitted, &[u8]); 9] = [
    (Ok(Ok(65_535)), b"\x00\x06\x00\x00\x00\x00\xff\xff"),
    (Ok(Ok(0x0102_0304)), b"\x00\x06\x00\x00\x01\x02\x03\x04"),
    (Ok(Err(SubmitRefusal::Empty)), b"\x00\x01\x11"),
    (Ok(Err(SubmitRefusal::TooLong)), b"\x00\x01\x12"),
    (Ok(Err(SubmitRefusal::Duplicate)), b"\x00\x01\x13"),
    (Ok(Err(SubmitRefusal::Full)), b"\x00\x01\x14"),
    (
        Ok(Err(SubmitRefusal::Rejected(7))),
        b"\x00\x05\x15\x00\x00\x00\x07",
    ),
    (Err(ApplyFault::HistoryFull), b"\x00\x01\x04"),
    (Err(ApplyFault::NoMemory), b"\x00\x01\x16"),
];

/// The fault of a query and of a block, and the reply.
const FAULTS: [(ApplyFault, &[u8]); 2] = [
    (ApplyFault::HistoryFull, b"\x00\x01\x04"),
    (ApplyFault::NoMemory, b"\x00\x01\x16"),
];

/// How a session ended.
#[derive(Clone, Copy, PartialEq, Eq)]
pub(crate) enum End {
    Clean,
    Cut,
    Read,
    Write,
    Other,
}

/// How a session with this result ended.
fn end_of(served: &Result<SessionEnd, SessionFault>) -> End {
    match served {
        Ok(SessionEnd::Clean) => End::Clean,
        Ok(SessionEnd::Cut) => End::Cut,
        Err(SessionFault::Read(_)) => End::Read,
        Err(SessionFault::Write(_)) => End::Write,
        Err(_) => End::Other,
    }
}

/// Serves a session from its start, and returns how it ended.
pub(crate) fn ends<R: Read, W: Write>(
    alloc: Global,
    input: &mut R,
    output: &mut W,
    targets: &mut Fake,
) -> End {
    let mut session = Session::new();
    let (mut input, mut output) = (CountedStream::new(input), CountedStream::new(output));
    let served = serve(alloc, &mut input, &mut output, &mut session, targets);
    end_of(&served)
}

/// Serves a session from its start, and once more over the same streams. The failures of both calls add up.
fn serve_twice<R: SessionReader, W: SessionWriter>(
    alloc: Global,
    input: &mut R,
    output: &mut W,
    targets: &mut Fake,
) -> (
    Result<SessionEnd, SessionFault>,
    Result<SessionEnd, SessionFault>,
)
    ensures reader { R.failures input.new ≡ R.failures input.old + read_failures_in result.0 + read_failures_in result.1 }
    ensures writer { W.failures output.new ≡ W.failures output.old + write_failures_in result.0 + write_failures_in result.1 }
{
    let mut session = Session::new();
    let first = serve(alloc, input, output, &mut session, targets);
    let second = serve(alloc, input, output, &mut session, targets);
    (first, second)
}

/// Whether the first of two sessions over one reader ends with a failed read, and the second one serves what is left.
fn is_served_on(alloc: Global, targets: &mut Fake, input: FailingReader<'_>) -> bool {
    let mut written = Vec::new(alloc);
    let (mut input, mut output) = (CountedStream::new(input), CountedStream::new(&mut written));
    let (first, second) = serve_twice(alloc, &mut input, &mut output, targets);
    let found = (end_of(&first), end_of(&second));
    found == (End::Read, End::Clean) && written.as_slice() == REPLIES
}

/// Whether a session over this input has this end, and has written exactly these bytes.
fn ends_with<R: Read>(
    alloc: Global,
    targets: &mut Fake,
    input: &mut R,
    end: End,
    replies: &[u8],
) -> bool {
    let mut output = Vec::new(alloc);
    let found = ends(alloc, input, &mut output, targets);
    found == end && output.as_slice() == replies
}

/// Whether the requests get exactly these replies, and the session ends cleanly.
fn gets(alloc: Global, targets: &mut Fake, requests: &[u8], replies: &[u8]) -> bool {
    let mut input = requests;
    ends_with(alloc, targets, &mut input, End::Clean, replies)
}

/// Whether a session ends if its writer fails after these bytes.
fn fails_behind(alloc: Global, targets: &mut Fake, requests: &[u8], replies: &[u8]) -> bool {
    let mut input = requests;
    let mut output = FailingWriter::new(alloc, replies.len());
    let found = ends(alloc, &mut input, &mut output, targets);
    found == End::Write && output.written() == replies
}

/// The replies that are due after `len` bytes of the requests.
fn due(len: usize) -> &'static [u8] {
    match len {
        0..6 => b"",
        6..9 => b"\x00\x06\x00\x00\x00\x00\x00\x00",
        9..13 => b"\x00\x06\x00\x00\x00\x00\x00\x00\x00\x05\x00\x00\x00\x00\x03",
        13..16 => b"\x00\x06\x00\x00\x00\x00\x00\x00\x00\x05\x00\x00\x00\x00\x03\x00\x01\x05",
        _ => REPLIES,
    }
}

/// How a session ends whose input is the first `len` bytes of the requests.
fn end_behind(len: usize) -> End {
    if [0, 6, 9, 13, 16].contains(&len) {
        End::Clean
    } else {
        End::Cut
    }
}

/// A client gets height 3 from replica 0, switches to replica 2, and asks twice for a key, at height 3 at least.
const ASKS_AGAIN: &[u8] =
    b"\x00\x01\x03\x00\x02\x05\x02\x00\x06\x02\x00\x00\x00\x03a\x00\x06\x02\x00\x00\x00\x03a";

/// Replica 2 reaches height 3 between the two queries.
const TOLD_AGAIN: &[u8] =
    b"\x00\x05\x00\x00\x00\x00\x03\x00\x01\x00\x00\x01\x02\x00\x07\x00\x00\x00\x00\x03\x011";

/// A client submits two transactions to replica 0, one to replica 2, and one more to replica 0.
const SUBMITS: &[u8] =
    b"\x00\x04\x01a=1\x00\x04\x01b=2\x00\x02\x05\x02\x00\x04\x01a=1\x00\x02\x05\x00\x00\x04\x01c=3";

/// Their receipts, if nothing else was in the histories: entries 0 and 1 of replica 0, 0 of replica 2, and 2 of replica 0.
const RECEIPTS: &[u8] =
    b"\x00\x06\x00\x00\x00\x00\x00\x00\x00\x06\x00\x00\x00\x00\x00\x01\x00\x01\x00\
    \x00\x06\x00\x02\x00\x00\x00\x00\x00\x01\x00\x00\x06\x00\x00\x00\x00\x00\x02";

#[test]
fn a_receipt_names_the_replica_and_the_entry(rt: HostRuntime) {
    let alloc = rt.alloc();
    let mut targets = Fake::new(alloc, [3, 3, 1, 3]);
    targets.count_submits();
    assert!(rt; gets(alloc, &mut targets, SUBMITS, RECEIPTS));
}

#[test]
fn a_replica_that_was_behind_answers_once_it_is_not(rt: HostRuntime) {
    let alloc = rt.alloc();
    let mut targets = Fake::new(alloc, [3, 3, 1, 3]);
    targets.rise_behind(2);
    assert!(rt; gets(alloc, &mut targets, ASKS_AGAIN, TOLD_AGAIN));
}

#[test]
fn each_request_gets_its_reply(rt: HostRuntime) {
    let alloc = rt.alloc();
    let mut targets = Fake::new(alloc, [3, 3, 1, 3]);
    for &(requests, replies) in &CASES {
        assert!(rt;
            gets(alloc, &mut targets, requests, replies),
            "{requests:?}"
        );
    }
}

#[test]
fn a_key_has_at_most_64_bytes(rt: HostRuntime) {
    let alloc = rt.alloc();
    let mut targets = Fake::new(alloc, [3, 3, 1, 3]);
    let mut request = [0u8; 72];
    request[1] = 69;
    request[2] = 2;
    assert!(rt;
        gets(
            alloc,
            &mut targets,
            &request[..71],
            b"\x00\x06\x00\x00\x00\x00\x03\x00"
        )
    );
    request[1] = 70;
    assert!(rt; gets(alloc, &mut targets, &request, b"\x00\x01\x01"));
    assert_eq!(rt; targets.asked(), 1);
}

/// Whether the reply to a query is the longest one: status 0, height 3, and a value of 65,529 bytes.
fn is_longest(reply: &[u8]) -> bool {
    reply.len() == 2 + 65_535
        && reply.starts_with(b"\xff\xff\x00\x00\x00\x00\x03\x01v")
        && reply.ends_with(b"v")
}

#[test]
fn a_value_has_at_most_65529_bytes(rt: HostRuntime) {
    let alloc = rt.alloc();
    let mut targets = Fake::new(alloc, [3, 3, 1, 3]);
    let mut input = b"\x00\x06\x02\x00\x00\x00\x00l".as_slice();
    let mut output = Vec::new(alloc);
    let end = ends(alloc, &mut input, &mut output, &mut targets);
    assert!(rt; end == End::Clean && is_longest(&output));
    assert!(rt;
        gets(
            alloc,
            &mut targets,
            b"\x00\x06\x02\x00\x00\x00\x00m",
            b"\x00\x01\x06"
        )
    );
}

#[test]
fn each_answer_of_a_target_has_its_reply(rt: HostRuntime) {
    let alloc = rt.alloc();
    let mut targets = Fake::new(alloc, [3, 3, 1, 3]);
    for &(answer, reply) in &SUBMITTED {
        targets.answer_submits(answer);
        assert!(rt;
            gets(alloc, &mut targets, b"\x00\x04\x01a=1", reply),
            "{reply:?}"
        );
    }
    for &(fault, reply) in &FAULTS {
        targets.fail(fault);
        assert!(rt;
            gets(alloc, &mut targets, b"\x00\x05\x02\x00\x00\x00\x00", reply),
            "{reply:?}"
        );
        assert!(rt;
            gets(alloc, &mut targets, b"\x00\x05\x04\x00\x00\x00\x01", reply),
            "{reply:?}"
        );
    }
}

#[test]
fn a_request_that_is_cut_is_not_served(rt: HostRuntime) {
    let alloc = rt.alloc();
    let mut targets = Fake::new(alloc, [3, 3, 1, 3]);
    let mut input = b"\x00\x04\x01a".as_slice();
    assert!(rt; ends_with(alloc, &mut targets, &mut input, End::Cut, b""));
    assert!(rt; targets.asked() == 0);
    for len in 0..=REQUESTS.len() {
        let mut input = &REQUESTS[..len];
        assert!(rt;
            ends_with(alloc, &mut targets, &mut input, end_behind(len), due(len)),
            "{len}"
        );
    }
}

#[test]
fn a_read_that_fails_ends_the_session(rt: HostRuntime) {
    let alloc = rt.alloc();
    let mut targets = Fake::new(alloc, [3, 3, 1, 3]);
    for bytes in 0..=REQUESTS.len() {
        let mut input = FailingReader::new(REQUESTS, bytes);
        assert!(rt;
            ends_with(alloc, &mut targets, &mut input, End::Read, due(bytes)),
            "{bytes}"
        );
    }
    let mut input = FailingReader::new(REQUESTS, usize::MAX);
    assert!(rt; ends_with(alloc, &mut targets, &mut input, End::Clean, REPLIES));
}

#[test]
fn a_session_goes_on_over_a_stream_that_failed_once(rt: HostRuntime) {
    let alloc = rt.alloc();
    let mut targets = Fake::new(alloc, [3, 3, 1, 3]);
    for bytes in [0, 6, 9, 13, 16] {
        let input = FailingReader::new(REQUESTS, bytes);
        assert!(rt; is_served_on(alloc, &mut targets, input), "{bytes}");
    }
}

#[test]
fn a_write_that_fails_ends_the_session(rt: HostRuntime) {
    let alloc = rt.alloc();
    let mut targets = Fake::new(alloc, [3, 3, 1, 3]);
    for bytes in 0..REPLIES.len() {
        assert!(rt;
            fails_behind(alloc, &mut targets, REQUESTS, &REPLIES[..bytes]),
            "{bytes}"
        );
    }
    let mut targets = Fake::new(alloc, [0, 0, 0, 0]);
    let requests = b"\x00\x04\x01a=1\x00\x01\x03";
    assert!(rt; fails_behind(alloc, &mut targets, requests, b""));
    assert!(rt; targets.asked() == 1);
}

#[test]
fn each_reply_is_one_write_and_is_flushed(rt: HostRuntime) {
    let alloc = rt.alloc();
    let mut targets = Fake::new(alloc, [3, 3, 1, 3]);
    let mut output = FailingWriter::whole(alloc);
    let mut input = REQUESTS;
    let found = ends(alloc, &mut input, &mut output, &mut targets);
    assert!(rt; found == End::Clean && output.written() == REPLIES);
    assert_eq!(rt; (output.writes(), output.flushes()), (4, 4));
}

#[test]
fn an_interrupted_flush_is_repeated(rt: HostRuntime) {
    let alloc = rt.alloc();
    let mut targets = Fake::new(alloc, [3, 3, 1, 3]);
    let mut output = FailingWriter::new(alloc, usize::MAX);
    let mut input = REQUESTS;
    let found = ends(alloc, &mut input, &mut output, &mut targets);
    assert!(rt; found == End::Clean && output.flushes() == 4);
}

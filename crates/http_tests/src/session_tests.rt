//! Connections over streams in memory: each question with its exchanges and its reply, each fault, and streams that end and fail.

use crate::expected::*;
use crate::session_streams::{SlowReader, SlowWriter};
use crate::session_targets::Fake;
use client_sessions::CountedStream;
use http_sessions::{ConnectionFault, Delivery, RequestEnd, serve_request};
use ledger_model::{ApplyFault, Height, ReplicaId, SubmitRefusal};
use std::alloc::{AllocError, Global};

/// How a connection ended.
#[derive(Clone, Copy, PartialEq, Eq)]
enum End {
    Answered,
    OutOfMemory,
    Silent,
    Read,
    Write,
}

fn end_of(served: &Result<RequestEnd, ConnectionFault>) -> End {
    match served {
        Ok(RequestEnd::Answered) => End::Answered,
        Ok(RequestEnd::OutOfMemory) => End::OutOfMemory,
        Ok(RequestEnd::Silent) => End::Silent,
        Err(ConnectionFault::Read(_)) => End::Read,
        Err(ConnectionFault::Write(_)) => End::Write,
    }
}

/// Serves a connection, and returns how it ended.
fn ends(
    alloc: Global,
    input: &mut SlowReader<'_>,
    output: &mut SlowWriter,
    targets: &mut Fake,
) -> End {
    let (mut input, mut output) = (CountedStream::new(input), CountedStream::new(output));
    let served = serve_request(alloc, &mut input, &mut output, targets);
    end_of(&served)
}

/// The head of a GET of this target.
fn head_of(alloc: Global, target: &[u8]) -> Option<Vec<u8>> {
    let mut head = b"GET ".to_vec(alloc).ok()?;
    head.extend_from_slice(target).ok()?;
    head.extend_from_slice(b" HTTP/1.1\r\nHost: localhost\r\n\r\n")
        .ok()?;
    Some(head)
}

/// Whether these bytes are answered by this text, and by these calls.
fn is_reply(alloc: Global, targets: &mut Fake, input: &[u8], calls: &[u8], text: &str) -> bool {
    let mut output = SlowWriter::new(alloc, usize::MAX);
    let mut reader = SlowReader::new(input, false);
    targets.calls.clear();
    ends(alloc, &mut reader, &mut output, targets) == End::Answered
        && output.bytes.as_slice() == text.as_bytes()
        && output.flushes == 1
        && targets.calls.as_slice() == calls
}

/// Whether a GET of this target is answered by this text, and by these calls.
fn is_answer(alloc: Global, targets: &mut Fake, target: &[u8], calls: &[u8], text: &str) -> bool {
    match head_of(alloc, target) {
        Some(head) => is_reply(alloc, targets, &head, calls, text),
        None => false,
    }
}

/// A target, the calls that it makes, and the reply.
type Case<'a> = (&'a [u8], &'a [u8], &'a str);

/// The first of the cases that goes wrong.
fn first_wrong<'a>(alloc: Global, targets: &mut Fake, cases: &[Case<'a>]) -> Option<&'a str> {
    for (target, calls, text) in cases {
        if !is_answer(alloc, targets, target, calls, text) {
            return Some(text);
        }
    }
    None
}

const QUESTIONS: [Case<'static>; 19] = [
    (b"/health", b"", HEALTH),
    (b"/status?replica=2", b"G2", STATUS),
    (b"/status", b"H0H1H2H3G2", STATUS),
    (b"/abci_info", b"H0H1H2H3I2", INFO),
    (b"/abci_query?data=\"abcd\"", b"H0H1H2H3Q2", FOUND),
    (b"/abci_query?data=\"abcd\"&height=0", b"H0H1H2H3Q2", FOUND),
    (
        b"/abci_query?data=\"abcd\"&height=12&replica=3",
        b"H3Q3",
        FOUND,
    ),
    (
        b"/abci_query?data=\"abcd\"&height=11",
        b"H0H1H2H3H2",
        NOT_LAST_HEIGHT,
    ),
    (b"/block?height=1", b"H0H1H2H3B2", EMPTY_BLOCK),
    (b"/block?height=4096", b"H0H1H2H3B2", BLOCK),
    (b"/block?height=0", b"H0H1H2H3B2", NOT_COMMITTED),
    (b"/block", b"H0H1H2H3H2B2", NOT_COMMITTED),
    (b"/num_unconfirmed_txs", b"P0", UNCONFIRMED),
    (
        b"/broadcast_tx_sync?tx=\"name=satoshi\"&replica=3",
        b"S3A3",
        SYNC,
    ),
    (
        b"/broadcast_tx_commit?tx=\"name=satoshi\"",
        b"H0H1H2H3S1A1W1",
        TIMED_OUT,
    ),
    (
        b"/broadcast_tx_commit?tx=\"name=satoshi\"&replica=0",
        b"S0A0W0",
        TIMED_OUT,
    ),
    (b"/metrics", b"M0M1M2M3", ALL_METRICS),
    (b"/metrics?replica=4", b"", NO_REPLICA),
    (b"/health?replica=255", b"", NO_REPLICA),
];

#[test]
fn each_question_has_its_exchanges_and_its_reply(rt: HostRuntime) {
    let mut targets = Fake::new(rt.alloc());
    assert_eq!(rt; first_wrong(rt.alloc(), &mut targets, &QUESTIONS), None);
}

/// The metrics of replica 2: the comments and its lines of `ALL_METRICS`, under a head with their length.
fn metrics_of_2(alloc: Global) -> Result<String, AllocError> {
    let mut text = String::new(alloc);
    text.push_str(METRICS_OF_2_HEAD)?;
    for line in ALL_METRICS.split_inclusive('\n') {
        if line.starts_with('#') || line.contains("{replica=\"2\"") {
            text.push_str(line)?;
        }
    }
    Ok(text)
}

/// Whether a request for the metrics of replica 2 is answered by them.
fn is_answered_for_2(alloc: Global, targets: &mut Fake) -> bool {
    match metrics_of_2(alloc) {
        Ok(text) => is_answer(alloc, targets, b"/metrics?replica=2", b"M2", &text),
        Err(_) => false,
    }
}

#[test]
fn metrics_of_one_replica_are_its_lines_of_all(rt: HostRuntime) {
    let mut targets = Fake::new(rt.alloc());
    assert!(rt; is_answered_for_2(rt.alloc(), &mut targets));
}

const FAULTS: [Case<'static>; 3] = [
    (b"/abci_query", b"", WRONG),
    (b"/nothing", b"", NOT_FOUND),
    (b"/ \x00", b"", MALFORMED),
];

#[test]
fn a_fault_asks_nothing(rt: HostRuntime) {
    let mut targets = Fake::new(rt.alloc());
    assert_eq!(rt; first_wrong(rt.alloc(), &mut targets, &FAULTS), None);
    assert!(rt;
        is_reply(
            rt.alloc(),
            &mut targets,
            b"POST /health HTTP/1.1\r\n\r\n",
            b"",
            METHOD
        )
    );
}

#[test]
fn the_block_at_the_committed_height_is_the_last(rt: HostRuntime) {
    let mut targets = Fake::new(rt.alloc());
    targets.heights = [4096; 4];
    assert!(rt;
        is_answer(
            rt.alloc(),
            &mut targets,
            b"/block?replica=1",
            b"H1B1",
            BLOCK
        )
    );
}

#[test]
fn a_query_that_comes_after_the_next_block_is_refused(rt: HostRuntime) {
    let mut targets = Fake::new(rt.alloc());
    targets.found_height = 13;
    let query = b"/abci_query?data=\"abcd\"&height=12";
    assert!(rt;
        is_answer(
            rt.alloc(),
            &mut targets,
            query,
            b"H0H1H2H3H2Q2",
            NOT_LAST_HEIGHT
        )
    );
}

/// The first of the refusals of a submit that goes wrong: its reply to `broadcast_tx_sync`, and that to `broadcast_tx_commit`.
fn first_wrong_refusal(alloc: Global, targets: &mut Fake) -> Option<&'static str> {
    for (refusal, sync, commit) in [
        (SubmitRefusal::Empty, EMPTY, EMPTY),
        (SubmitRefusal::TooLong, LONG, LONG),
        (SubmitRefusal::Duplicate, DUPLICATE, DUPLICATE),
        (SubmitRefusal::Full, FULL, FULL),
        (SubmitRefusal::Rejected(7), REJECTED, REJECTED_COMMIT),
    ] {
        targets.submitted = Ok(Err(refusal));
        if let Some(wrong) = first_wrong(
            alloc,
            targets,
            &[
                (
                    b"/broadcast_tx_sync?tx=\"name=satoshi\"",
                    b"H0H1H2H3S1",
                    sync,
                ),
                (
                    b"/broadcast_tx_commit?tx=\"name=satoshi\"",
                    b"H0H1H2H3S1",
                    commit,
                ),
            ],
        ) {
            return Some(wrong);
        }
    }
    None
}

#[test]
fn what_no_pool_takes_is_not_waited_for(rt: HostRuntime) {
    let mut targets = Fake::new(rt.alloc());
    assert_eq!(rt; first_wrong_refusal(rt.alloc(), &mut targets), None);
}

/// The first of what becomes of a transaction that goes wrong.
fn first_wrong_delivery(alloc: Global, targets: &mut Fake) -> Option<&'static str> {
    targets.submitted = Ok(Ok(39));
    for (delivery, text) in [
        (
            Delivery::Committed {
                height: Height::new(5),
                code: 1,
            },
            COMMIT,
        ),
        (Delivery::TimedOut, TIMED_OUT),
        (Delivery::Stopping, STOPPING),
    ] {
        targets.delivery = delivery;
        if !is_answer(
            alloc,
            targets,
            b"/broadcast_tx_commit?tx=\"name=satoshi\"&replica=0",
            b"S0A0W0",
            text,
        ) {
            return Some(text);
        }
    }
    None
}

#[test]
fn what_a_pool_takes_is_waited_for(rt: HostRuntime) {
    let mut targets = Fake::new(rt.alloc());
    assert_eq!(rt; first_wrong_delivery(rt.alloc(), &mut targets), None);
}

/// The first reply to a replica's fault that goes wrong.
fn first_wrong_fault(alloc: Global, targets: &mut Fake) -> Option<&'static str> {
    for (fault, text) in [
        (ApplyFault::HistoryFull, HISTORY_FULL),
        (ApplyFault::NoMemory, NO_MEMORY),
    ] {
        targets.fault = Some(fault);
        targets.submitted = Err(fault);
        if let Some(wrong) = first_wrong(
            alloc,
            targets,
            &[
                (b"/abci_query?data=\"abcd\"", b"H0H1H2H3Q2", text),
                (
                    b"/abci_query?data=\"abcd\"&height=12&replica=3",
                    b"H3Q3",
                    text,
                ),
                (b"/block?height=1&replica=0", b"B0", text),
                (b"/broadcast_tx_sync?tx=\"a\"", b"H0H1H2H3S1", text),
                (b"/broadcast_tx_commit?tx=\"a\"", b"H0H1H2H3S1", text),
            ],
        ) {
            return Some(wrong);
        }
    }
    None
}

#[test]
fn the_fault_of_a_replica_is_a_reply(rt: HostRuntime) {
    let mut targets = Fake::new(rt.alloc());
    assert_eq!(rt; first_wrong_fault(rt.alloc(), &mut targets), None);
}

/// Questions to replica 2, whose lock guards another's state, one to the replica with the most blocks, and one to all replicas, with the calls
/// that they make.
const OF_A_STRANGER: [(&str, &str); 7] = [
    ("/status?replica=2", "G2"),
    ("/abci_info?replica=2", "I2"),
    ("/num_unconfirmed_txs?replica=2", "P2"),
    ("/broadcast_tx_commit?tx=\"a\"&replica=2", "S2A2W2"),
    ("/metrics?replica=2", "M2"),
    ("/status", "H0H1H2H3G2"),
    ("/metrics", "M0M1M2"),
];

/// The first of these questions that has another reply than that about a stranger, or other calls.
fn first_wrong_stranger(alloc: Global, targets: &mut Fake) -> Option<&'static str> {
    for (target, calls) in OF_A_STRANGER {
        if !is_answer(
            alloc,
            targets,
            target.as_bytes(),
            calls.as_bytes(),
            STRANGER,
        ) {
            return Some(target);
        }
    }
    None
}

#[test]
fn a_stranger_shows_nothing_and_no_replica_after_it_is_asked(rt: HostRuntime) {
    let mut targets = Fake::new(rt.alloc());
    targets.stranger = Some(ReplicaId::new(2));
    assert_eq!(rt; first_wrong_stranger(rt.alloc(), &mut targets), None);
}

#[test]
fn a_head_that_is_cut_is_a_fault(rt: HostRuntime) {
    let mut targets = Fake::new(rt.alloc());
    let cut = b"GET /health HTTP/1.1\r\n";
    assert!(rt; is_reply(rt.alloc(), &mut targets, cut, b"", INCOMPLETE));
}

/// Whether a head of this many bytes is answered as too long, and how many of `most` bytes are then left unread.
fn left_of_long(alloc: Global, len: usize) -> Option<usize> {
    let mut input = b"GET /".to_vec(alloc).ok()?;
    input.resize(len, b'a').ok()?;
    let mut reader = SlowReader::new(&input, false);
    let mut output = SlowWriter::new(alloc, usize::MAX);
    let mut targets = Fake::new(alloc);
    if ends(alloc, &mut reader, &mut output, &mut targets) != End::Answered
        || output.bytes.as_slice() != TOO_LONG.as_bytes()
    {
        return None;
    }
    Some(reader.left())
}

#[test]
fn a_head_that_is_too_long_is_not_read_to_its_end(rt: HostRuntime) {
    assert_eq!(rt; left_of_long(rt.alloc(), 10_000), Some(10_000 - 8193));
}

/// How a connection ends whose input is these bytes and then the end or a fault, and whose output fails after `room` bytes; with the
/// number of bytes that were written, and the calls.
fn ending(alloc: Global, input: &[u8], fails: bool, room: usize) -> (End, usize, usize) {
    let mut reader = SlowReader::new(input, fails);
    let mut output = SlowWriter::new(alloc, room);
    let mut targets = Fake::new(alloc);
    let end = ends(alloc, &mut reader, &mut output, &mut targets);
    (end, output.bytes.len(), targets.calls.len())
}

#[test]
fn a_silent_client_gets_nothing(rt: HostRuntime) {
    assert!(rt; ending(rt.alloc(), b"", false, 9) == (End::Silent, 0, 0));
}

#[test]
fn a_failed_read_asks_nothing_and_writes_nothing(rt: HostRuntime) {
    assert!(rt; ending(rt.alloc(), b"", true, 9) == (End::Read, 0, 0));
    assert!(rt; ending(rt.alloc(), b"GET /status HTT", true, 9) == (End::Read, 0, 0));
}

#[test]
fn a_failed_write_leaves_a_prefix_of_the_reply(rt: HostRuntime) {
    let head = b"GET /num_unconfirmed_txs HTTP/1.1\r\n\r\n";
    assert!(rt; ending(rt.alloc(), head, true, 0) == (End::Write, 0, 2));
    assert!(rt; ending(rt.alloc(), head, false, 40) == (End::Write, 40, 2));
}

#[test]
fn the_page_asks_nothing(rt: HostRuntime) {
    let head = b"GET / HTTP/1.0\r\n\r\n";
    assert!(rt; ending(rt.alloc(), head, true, usize::MAX) == (End::Answered, 5266, 0));
}

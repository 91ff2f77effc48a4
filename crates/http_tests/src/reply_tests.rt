//! The bytes of replies.

use crate::expected::*;
use http_messages::{
    Answer, Commitment, FrameCounts, Parameter, Receipt, ReplicaMetrics, RequestFault,
    ServiceFault, Submission, out_of_memory_reply, put_reply,
};
use ledger_model::{AppKind, Height, Ignored, ReplicaId, SubmitRefusal};
use std::alloc::Global;
use test_support::batch;

// Whether the reply to the answer is this text, after what the buffer had.
fn is_reply(alloc: Global, answer: &Answer<'_>, text: &str) -> bool {
    let Ok(mut out) = b"before".to_vec(alloc) else {
        return false;
    };
    if put_reply(&mut out, answer).is_err() {
        return false;
    }
    match out.strip_prefix(b"before".as_slice()) {
        Some(reply) => reply == text.as_bytes(),
        None => false,
    }
}

// Whether the reply with a block of these transactions is this text.
fn is_block(alloc: Global, height: u32, transactions: &[&[u8]], text: &str) -> bool {
    let Ok(batch) = batch(alloc, transactions) else {
        return false;
    };
    let height = Height::new(height);
    for (answer, text) in &[(
        Answer::Block {
            height,
            batch: &batch,
        },
        text,
    )] {
        if !is_reply(alloc, answer, text) {
            return false;
        }
    }
    true
}

// Replica 3's receipt for entry 44.
fn receipt() -> Receipt {
    Receipt {
        replica: ReplicaId::new(3),
        index: 44,
    }
}

#[test]
fn each_question_is_answered(rt: HostRuntime) {
    let hash = [0; 32];
    for (answer, text) in &[
        (Answer::Health, HEALTH),
        (
            Answer::Status {
                replica: ReplicaId::new(2),
                round: 345,
                height: Height::new(12),
            },
            STATUS,
        ),
        (
            Answer::AbciInfo {
                kind: AppKind::KvStore,
                height: Height::new(12),
                hash: &hash,
            },
            INFO,
        ),
        (
            Answer::AbciQuery {
                key: b"abcd",
                value: Some(b"abcd"),
                height: Height::new(12),
            },
            FOUND,
        ),
        (
            Answer::AbciQuery {
                key: b"\"\xff",
                value: None,
                height: Height::new(0),
            },
            MISSING,
        ),
        (
            Answer::UnconfirmedTxs {
                count: 31,
                bytes: 19974,
            },
            UNCONFIRMED,
        ),
    ] {
        assert!(rt; is_reply(rt.alloc(), answer, text), "{text}");
    }
    assert!(rt; is_block(rt.alloc(), 1, &[], EMPTY_BLOCK));
    assert!(rt;
        is_block(
            rt.alloc(),
            4096,
            &[b"a=1".as_slice(), b"name=satoshi".as_slice()],
            BLOCK
        )
    );
}

// The answer to a transaction for the pool.
fn sync(submission: Submission) -> Answer<'static> {
    Answer::BroadcastSync {
        tx: b"name=satoshi",
        submission,
    }
}

// The answer to a transaction that was to be in a block.
fn commit(commitment: Commitment) -> Answer<'static> {
    Answer::BroadcastCommit {
        tx: b"name=satoshi",
        commitment,
    }
}

#[test]
fn each_transaction_is_answered(rt: HostRuntime) {
    for (answer, text) in &[
        (sync(Submission::Pooled(receipt())), SYNC),
        (
            sync(Submission::Refused(SubmitRefusal::Rejected(7))),
            REJECTED,
        ),
        (sync(Submission::Refused(SubmitRefusal::Empty)), EMPTY),
        (
            sync(Submission::Refused(SubmitRefusal::Duplicate)),
            DUPLICATE,
        ),
        (
            commit(Commitment::Committed {
                receipt: Receipt {
                    replica: ReplicaId::new(0),
                    index: 39,
                },
                height: Height::new(5),
                code: 1,
            }),
            COMMIT,
        ),
        (
            commit(Commitment::Refused(SubmitRefusal::Rejected(7))),
            REJECTED_COMMIT,
        ),
        (commit(Commitment::Refused(SubmitRefusal::TooLong)), LONG),
        (commit(Commitment::Refused(SubmitRefusal::Full)), FULL),
    ] {
        assert!(rt; is_reply(rt.alloc(), answer, text), "{text}");
    }
}

#[test]
fn each_fault_is_answered(rt: HostRuntime) {
    for (answer, text) in &[
        (Answer::Fault(RequestFault::Malformed), MALFORMED),
        (
            Answer::Fault(RequestFault::Parameter(Parameter::Data)),
            WRONG,
        ),
        (Answer::Fault(RequestFault::Incomplete), INCOMPLETE),
        (Answer::Fault(RequestFault::NotFound), NOT_FOUND),
        (Answer::Fault(RequestFault::Method), METHOD),
        (Answer::Fault(RequestFault::TooLong), TOO_LONG),
        (Answer::Fault(RequestFault::NoMemory), NO_MEMORY),
        (Answer::Unanswered(ServiceFault::NoReplica), NO_REPLICA),
        (
            Answer::Unanswered(ServiceFault::NotCommitted),
            NOT_COMMITTED,
        ),
        (
            Answer::Unanswered(ServiceFault::NotLastHeight),
            NOT_LAST_HEIGHT,
        ),
        (Answer::Unanswered(ServiceFault::HistoryFull), HISTORY_FULL),
        (Answer::Unanswered(ServiceFault::TimedOut), TIMED_OUT),
        (Answer::Unanswered(ServiceFault::Stopping), STOPPING),
        (Answer::Unanswered(ServiceFault::Stranger), STRANGER),
    ] {
        assert!(rt; is_reply(rt.alloc(), answer, text), "{text}");
    }
}

#[test]
fn the_reply_that_needs_no_memory_is_that_of_no_memory(rt: HostRuntime) {
    assert!(rt; out_of_memory_reply() == NO_MEMORY.as_bytes());
}

#[test]
fn metrics_are_one_text_for_all_replicas(rt: HostRuntime) {
    let replicas = [
        ReplicaMetrics {
            replica: ReplicaId::new(0),
            rounds: 17,
            height: Height::new(4),
            signatures_left: 1001,
            pool_transactions: 5,
            history_entries: 333,
            frames: FrameCounts {
                accepted: 180,
                ignored: [1, 20, 3, 40, 5, 60, 7, 80, 9, 100, u64::MAX],
            },
            frames_lost: 9,
        },
        ReplicaMetrics {
            replica: ReplicaId::new(3),
            rounds: 4_000_000_000,
            height: Height::new(0),
            signatures_left: 0,
            pool_transactions: u64::MAX,
            history_entries: 0,
            frames: FrameCounts {
                accepted: u64::MAX,
                ignored: [0; 11],
            },
            frames_lost: u64::MAX,
        },
    ];
    for (answer, text) in &[(Answer::Metrics(&replicas), METRICS)] {
        assert!(rt; is_reply(rt.alloc(), answer, text));
    }
}

const ALL_CAUSES: [Ignored; 11] = [
    Ignored::Malformed,
    Ignored::Signer,
    Ignored::NoRow,
    Ignored::WrongRound,
    Ignored::WrongPhase,
    Ignored::NotOwner,
    Ignored::Repeated,
    Ignored::BadSignature,
    Ignored::BadProof,
    Ignored::TableFull,
    Ignored::NotMine,
];

// The counts after the answer was counted this number of times for each cause, in turn: once for the first, twice for the second.
fn counts_of_causes() -> FrameCounts {
    let mut counts = FrameCounts::new();
    for (place, cause) in ALL_CAUSES.iter().enumerate() {
        for _ in 0..=place {
            counts.count(Err(*cause));
        }
    }
    counts.count(Ok(()));
    counts
}

#[test]
fn each_answer_is_counted_for_its_cause(rt: HostRuntime) {
    let counts = counts_of_causes();
    assert!(rt; counts.accepted == 1);
    assert!(rt; counts.ignored == [1, 2, 3, 4, 5, 6, 7, 8, 9, 10, 11]);
}

#[test]
fn a_count_stays_at_the_last_number(rt: HostRuntime) {
    let mut counts = FrameCounts {
        accepted: u64::MAX,
        ignored: [u64::MAX; 11],
    };
    counts.count(Ok(()));
    counts.count(Err(Ignored::Repeated));
    assert!(rt; counts.accepted == u64::MAX);
    assert!(rt; counts.ignored_for(Ignored::Repeated) == u64::MAX);
}

// Whether the reply to the answer starts with these bytes.
fn starts_with(alloc: Global, answer: &Answer<'_>, start: &str) -> bool {
    let mut out = Vec::new(alloc);
    put_reply(&mut out, answer).is_ok() && out.starts_with(start.as_bytes())
}

#[test]
fn the_page_is_html(rt: HostRuntime) {
    for (answer, start) in &[(
        Answer::Page,
        "HTTP/1.1 200 OK\r\nContent-Type: text/html; charset=utf-8\r\nContent-Length: ",
    )] {
        assert!(rt; starts_with(rt.alloc(), answer, start));
    }
}

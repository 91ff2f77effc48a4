//! Which value the owner of a phase chooses, and when acknowledgements decide.

use super::read_reports::{four, read};
use ledger_model::{
    Ack, AppKind, Batch, Config, Height, Lock, LockProof, Phase, ReplicaId, Version,
};
use phase_core::{choose, decides};
use std::alloc::Global;
use tally::Tally;
use test_support::{ReportFields, ack, naming, value};

fn chosen(alloc: Global, own: &[u8], reports: &[ReportFields<'_>]) -> Option<Option<Batch>> {
    let config = four()?;
    let own = value(alloc, own).ok()?;
    let read = read(alloc, &config, reports)?;
    choose(&config, &read, &own).ok()
}

// Whether the batch of this transaction is chosen.
fn chooses(alloc: Global, own: &[u8], reports: &[ReportFields<'_>], wanted: &[u8]) -> Option<bool> {
    let wanted = value(alloc, wanted).ok()?;
    match chosen(alloc, own, reports)? {
        Some(value) => Some(value == wanted),
        None => Some(false),
    }
}

fn chooses_nothing(alloc: Global, own: &[u8], reports: &[ReportFields<'_>]) -> Option<bool> {
    Some(chosen(alloc, own, reports)?.is_none())
}

// Three reports that name these values.
fn all_naming<'a>(proper: &'a [&'a [u8]]) -> [ReportFields<'a>; 3] {
    [
        naming(0, b"i", proper),
        naming(1, b"i", proper),
        naming(2, b"i", proper),
    ]
}

// A report of replica `signer` that every value is proper, with a lock on y.
fn holding(signer: u8) -> ReportFields<'static> {
    ReportFields {
        signer,
        all: true,
        initial: b"i",
        proper: &[b"x"],
        locked: &[b"y"],
    }
}

#[test]
fn a_value_is_chosen(rt: HostRuntime) {
    let alloc = rt.alloc();
    // All reports name x, y and z: the own value comes first, and otherwise the least.
    let reports = all_naming(&[b"x", b"y", b"z"]);
    assert!(rt; chooses(alloc, b"y", &reports, b"y") == Some(true));
    assert!(rt; chooses(alloc, b"w", &reports, b"x") == Some(true));
    // Shorter transactions come first; among transactions of the same length, the lesser bytes.
    let reports = all_naming(&[b"aa", b"ab", b"z"]);
    assert!(rt; chooses(alloc, b"w", &reports, b"z") == Some(true));
    // A value that reports list as locked is chosen although no list names it, because all reports name every value.
    let reports = [holding(0), holding(1), holding(2)];
    assert!(rt; chooses(alloc, b"x", &reports, b"y") == Some(true));
}

// Two of four are too few. A report with a lock on another value doesn't find the value that it names.
#[test]
fn nothing_is_chosen_where_too_few_find_it(rt: HostRuntime) {
    let first = naming(0, b"i", &[b"x"]);
    let second = naming(1, b"i", &[b"x"]);
    for (case, reports) in [
        (
            "another value is named",
            [first, second, naming(2, b"i", &[b"y"])].as_slice(),
        ),
        ("another value is locked", &[first, second, holding(2)]),
        ("no report", &[]),
    ] {
        assert!(rt;
            chooses_nothing(rt.alloc(), b"x", reports) == Some(true),
            "{case}"
        );
    }
}

fn add_acks(alloc: Global, tally: &mut Tally<Ack>, count: u8) -> Option<()> {
    for signer in 0..count {
        if signer >= tally.replicas() {
            return None;
        }
        tally.add(ReplicaId::new(signer), ack(alloc, 2, signer, b"x").ok()?);
    }
    Some(())
}

// Acknowledgements of the lock of phase 2 on x by replicas 0, 1, 2 and so on, `count` of them.
fn acknowledged(alloc: Global, config: &Config, count: u8) -> Option<Tally<Ack>> {
    let mut tally = Tally::new(alloc, config).ok()?;
    add_acks(alloc, &mut tally, count)?;
    Some(tally)
}

// The lock of a phase on the value of one transaction.
fn lock_of(alloc: Global, phase: u32, bytes: &[u8]) -> Option<Lock> {
    Some(Lock {
        version: Version::One,
        height: Height::new(1),
        phase: Phase::new(phase),
        signer: ReplicaId::new(2),
        value: value(alloc, bytes).ok()?,
        proof: LockProof::new(Vec::new(alloc)),
    })
}

// Whether this number of acknowledgements decides the value of a lock, in a cluster of this size and number of faults.
fn decide(
    alloc: Global,
    (replicas, faults): (u8, u8),
    count: u8,
    phase: u32,
    bytes: &[u8],
) -> Option<bool> {
    let config = Config::new(replicas, faults, AppKind::KvStore).ok()?;
    let acks = acknowledged(alloc, &config, count)?;
    let lock = lock_of(alloc, phase, bytes)?;
    Some(decides(&config, &acks, &lock))
}

// Twice as many as may lie, and one more, decide, even in clusters of more than three times as many replicas.
#[test]
fn more_than_twice_the_liars_decide(rt: HostRuntime) {
    for (cluster, enough) in [((4, 1), 3), ((7, 1), 3), ((13, 4), 9), ((13, 1), 3)] {
        assert!(rt;
            decide(rt.alloc(), cluster, enough, 2, b"x") == Some(true),
            "{cluster:?}"
        );
        assert!(rt;
            decide(rt.alloc(), cluster, enough - 1, 2, b"x") == Some(false),
            "{cluster:?}, one fewer"
        );
    }
}

#[test]
fn acknowledgements_of_another_lock_decide_nothing(rt: HostRuntime) {
    for (phase, bytes, wanted) in [(3, b"x", false), (2, b"y", false), (2, b"x", true)] {
        assert!(rt;
            decide(rt.alloc(), (4, 1), 4, phase, bytes) == Some(wanted),
            "{phase} {bytes:?}"
        );
    }
}

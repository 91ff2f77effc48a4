//! Audits of the histories of the worked runs: as they are, cut, changed, too few, in any order.
use crate::fault::Fault;
use crate::handing::{Part, handed_in, part_of};
use crate::playing::{history_of, played};
use crate::scripts::{PLAIN, PLAIN_IN_VERSION_2, PLAIN_WITH_B, Script};
use app_kinds::AnyKind;
use app_states::new_apps;
use history_audit::{AuditFault, audit, receipt_holds};
use ledger_model::{History, Ledger, ReplicaId, Tx, Version};
use locked_replica::Snapshot;
use simulation::Simulation;
use std::alloc::{AllocError, Global};
use std::hash::RandomState;
use std::test::Fail;

/// What an audit returned: which ledger, or the fault with its numbers.
#[derive(Clone, Copy, PartialEq, Eq)]
enum Outcome {
    NoBlock,
    /// One block, `[a=1]`.
    PlainBlock,
    OtherLedger,
    Count,
    NotReplay(u8, usize),
    Unsent(u8, usize, u8),
    NoMemory,
}

/// A row: which histories of the plain run are handed in, in this order, and what the audit returns.
struct Row {
    name: &'static str,
    parts: &'static [(u8, Part)],
    outcome: Outcome,
}

/// All four histories, in another order.
const ALL: &[(u8, Part)] = &[
    (3, Part::Whole),
    (0, Part::Whole),
    (2, Part::Whole),
    (1, Part::Whole),
];

const ROWS: [Row; 12] = [
    Row {
        name: "all four, in another order",
        parts: ALL,
        outcome: Outcome::PlainBlock,
    },
    Row {
        name: "a quorum",
        parts: &[(0, Part::Whole), (1, Part::Whole), (3, Part::Whole)],
        outcome: Outcome::PlainBlock,
    },
    Row {
        name: "before anything happened",
        parts: &[
            (0, Part::Cut(0)),
            (1, Part::Cut(0)),
            (2, Part::Cut(0)),
            (3, Part::Cut(0)),
        ],
        outcome: Outcome::NoBlock,
    },
    Row {
        name: "a signer's history is cut",
        parts: &[
            (0, Part::Whole),
            (1, Part::Whole),
            (2, Part::Cut(8)),
            (3, Part::Whole),
        ],
        outcome: Outcome::Unsent(0, 15, 2),
    },
    Row {
        name: "a signer's history lacks its first report",
        parts: &[
            (0, Part::Whole),
            (1, Part::Whole),
            (2, Part::Cut(2)),
            (3, Part::Whole),
        ],
        outcome: Outcome::Unsent(0, 4, 2),
    },
    Row {
        name: "no histories",
        parts: &[],
        outcome: Outcome::Count,
    },
    Row {
        name: "two histories",
        parts: &[(0, Part::Whole), (1, Part::Whole)],
        outcome: Outcome::Count,
    },
    Row {
        name: "a history twice",
        parts: &[
            (0, Part::Whole),
            (1, Part::Whole),
            (1, Part::Whole),
            (2, Part::Whole),
        ],
        outcome: Outcome::Count,
    },
    Row {
        name: "a reply changed",
        parts: &[
            (0, Part::Changed(3)),
            (1, Part::Whole),
            (2, Part::Whole),
            (3, Part::Whole),
        ],
        outcome: Outcome::NotReplay(0, 3),
    },
    Row {
        name: "a reply changed in two histories",
        parts: &[
            (3, Part::Changed(4)),
            (2, Part::Changed(5)),
            (1, Part::Whole),
            (0, Part::Whole),
        ],
        outcome: Outcome::NotReplay(2, 5),
    },
    Row {
        name: "a report that the owner's lock has is dropped",
        parts: &[
            (0, Part::Whole),
            (1, Part::Dropped(3)),
            (2, Part::Whole),
            (3, Part::Whole),
        ],
        outcome: Outcome::NotReplay(1, 5),
    },
    Row {
        name: "a report accepted twice",
        parts: &[
            (0, Part::Twice(3)),
            (1, Part::Whole),
            (2, Part::Whole),
            (3, Part::Whole),
        ],
        outcome: Outcome::NotReplay(0, 4),
    },
];

/// Which ledger it is.
fn outcome_of_ledger(ledger: &Ledger) -> Outcome {
    match ledger.blocks() {
        [] => Outcome::NoBlock,
        [block] => match block.transactions() {
            [tx] if tx.as_bytes() == b"a=1".as_slice() => Outcome::PlainBlock,
            _ => Outcome::OtherLedger,
        },
        _ => Outcome::OtherLedger,
    }
}

/// What the fault says.
fn outcome_of(fault: AuditFault) -> Outcome {
    match fault {
        AuditFault::Count => Outcome::Count,
        AuditFault::NotReplay { replica, index } => Outcome::NotReplay(replica.number(), index),
        AuditFault::Unsent {
            reader,
            index,
            signer,
        } => Outcome::Unsent(reader.number(), index, signer.number()),
        AuditFault::NoMemory => Outcome::NoMemory,
    }
}

/// What an audit of these histories returns.
fn audited(
    alloc: Global,
    random: RandomState,
    snapshot: &Snapshot,
    histories: &[History],
) -> Result<Outcome, AllocError> {
    let config = &snapshot.config;
    let apps = new_apps::<AnyKind>(alloc, config.kind, histories.len())?;
    Ok(
        match audit(alloc, config, &snapshot.ring, histories, apps, random) {
            Ok(ledger) => outcome_of_ledger(&ledger),
            Err(fault) => outcome_of(fault),
        },
    )
}

/// Whether the audit of a row returns what the row says.
fn is_row_right(
    alloc: Global,
    random: RandomState,
    simulation: &Simulation<AnyKind>,
    snapshot: &Snapshot,
    row: &Row,
) -> Result<bool, Fault> {
    let histories = handed_in(alloc, simulation, row.parts)?;
    Ok(audited(alloc, random, snapshot, &histories)? == row.outcome)
}

/// The name of the first row whose audit returns something else, if there is one.
fn first_wrong_row(alloc: Global, random: RandomState) -> Result<Option<&'static str>, Fault> {
    let simulation = played(alloc, random, PLAIN)?;
    let snapshot = history_of(&simulation, 0)?;
    for row in &ROWS {
        if !is_row_right(alloc, random, &simulation, &snapshot, row)? {
            return Ok(Some(row.name));
        }
    }
    Ok(None)
}

#[test]
fn audits_name_the_ledger_or_the_first_fault(rt: HostRuntime) -> Result<(), Fail> {
    let random = RandomState::new(&rt)?;
    assert_eq!(rt; first_wrong_row(rt.alloc(), random)?, None);
    Ok(())
}

/// What an audit returns for a real fork: replica 0's history of one run, and those of replicas 1 and 2 of a run with the
/// same keys in which every replica proposed another batch. Each history is a replay.
fn outcome_of_fork(alloc: Global, random: RandomState) -> Result<Outcome, Fault> {
    let one = played(alloc, random, PLAIN)?;
    let other = played(alloc, random, PLAIN_WITH_B)?;
    let first = history_of(&one, 0)?;
    let mut histories = handed_in(alloc, &other, &[(1, Part::Whole), (2, Part::Whole)])?;
    histories.push(part_of(alloc, &first.history, Part::Whole)?)?;
    Ok(audited(alloc, random, &first, &histories)?)
}

#[test]
fn a_fork_is_reported_by_its_first_unsent_statement(rt: HostRuntime) -> Result<(), Fail> {
    let random = RandomState::new(&rt)?;
    // Entry 3 of replica 0 accepts replica 1's report on [a=1]; the history of replica 1 sends one on [b=1].
    assert!(rt; outcome_of_fork(rt.alloc(), random)? == Outcome::Unsent(0, 3, 1));
    Ok(())
}

/// What an audit returns for the histories of a script, as those of a cluster with frames of this version.
fn outcome_in(
    alloc: Global,
    random: RandomState,
    script: Script,
    version: Version,
) -> Result<Outcome, Fault> {
    let simulation = played(alloc, random, script)?;
    let mut snapshot = history_of(&simulation, 0)?;
    snapshot.config.frames = version;
    let histories = handed_in(alloc, &simulation, ALL)?;
    Ok(audited(alloc, random, &snapshot, &histories)?)
}

// Entry 2 of replica 0 sends its first report, of the version of its cluster's frames.
#[test]
fn an_audit_follows_replicas_in_the_version_of_their_cluster(rt: HostRuntime) -> Result<(), Fail> {
    let random = RandomState::new(&rt)?;
    for (script, version, wanted) in [
        (PLAIN, Version::Two, Outcome::NotReplay(0, 2)),
        (PLAIN_IN_VERSION_2, Version::One, Outcome::NotReplay(0, 2)),
        (PLAIN_IN_VERSION_2, Version::Two, Outcome::PlainBlock),
    ] {
        assert!(rt;
            outcome_in(rt.alloc(), random, script, version)? == wanted,
            "{version:?}"
        );
    }
    Ok(())
}

/// What an audit returns if the cluster doesn't have the replica of the fourth history.
fn outcome_of_stranger(alloc: Global, random: RandomState) -> Result<Outcome, Fault> {
    let simulation = played(alloc, random, PLAIN)?;
    let last = history_of(&simulation, 3)?;
    let known = [(0, Part::Whole), (1, Part::Whole), (2, Part::Whole)];
    let mut histories = handed_in(alloc, &simulation, &known)?;
    let entries = part_of(alloc, &last.history, Part::Whole)?.entries;
    let replica = ReplicaId::new(4);
    histories.push(History { replica, entries })?;
    Ok(audited(alloc, random, &last, &histories)?)
}

#[test]
fn an_audit_refuses_histories_of_strangers(rt: HostRuntime) -> Result<(), Fail> {
    let random = RandomState::new(&rt)?;
    assert!(rt; outcome_of_stranger(rt.alloc(), random)? == Outcome::Count);
    Ok(())
}

/// Receipts, and whether replica 0's history of the plain run has what they say.
const RECEIPTS: [(u8, u32, &[u8], bool); 5] = [
    (0, 0, b"a=1", true),
    (0, 1, b"a=1", false),
    (1, 0, b"a=1", false),
    (0, 0, b"b=1", false),
    (0, 65_536, b"a=1", false),
];

/// Whether the history has what the receipt says; a receipt of no transaction never holds.
fn holds(
    alloc: Global,
    history: &History,
    replica: u8,
    index: u32,
    tx: &[u8],
) -> Result<bool, AllocError> {
    match Tx::new(Vec::from_slice(alloc, tx)?) {
        Ok(tx) => Ok(receipt_holds(history, ReplicaId::new(replica), index, &tx)),
        Err(_) => Ok(false),
    }
}

/// The index of the first receipt that is answered otherwise, if there is one.
fn first_wrong_receipt(alloc: Global, random: RandomState) -> Result<Option<usize>, Fault> {
    let simulation = played(alloc, random, PLAIN)?;
    let snapshot = history_of(&simulation, 0)?;
    for (at, &(replica, index, tx, expected)) in RECEIPTS.iter().enumerate() {
        if holds(alloc, &snapshot.history, replica, index, tx)? != expected {
            return Ok(Some(at));
        }
    }
    Ok(None)
}

#[test]
fn receipts_hold_for_the_entry_that_they_name(rt: HostRuntime) -> Result<(), Fail> {
    let random = RandomState::new(&rt)?;
    assert_eq!(rt; first_wrong_receipt(rt.alloc(), random)?, None);
    Ok(())
}

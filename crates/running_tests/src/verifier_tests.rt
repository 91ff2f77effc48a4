//! What a replica's verifier hashes where a frame is delivered, with and without its answers beforehand.
use crate::replicas::{four, four_with_frames, replicas};
use app_kinds::AnyKind;
use bytes::Bytes;
use key_ring::KeyRing;
use ledger_model::{Event, Height, Ignored};
use locked_replica::{ReplyView, State};
use replica_turns::{arrived_frames, keep_checked, sent_at, unknown_parts, unknown_reports};
use signed_frames::{Frame, SignedPart};
use std::alloc::Global;
use std::random::RandomSource;
use std::test::Fail;
use std::thread::Threads;
use verify_pool::{NoGate, verify_all};

fn missing() -> Fail {
    Fail::from("a replica or a frame is missing")
}

/// Ends the replica's round, and returns the first frame that it sends then.
fn end_round(alloc: Global, state: &mut State<AnyKind>) -> Result<Bytes, Fail> {
    let index = state.apply(Event::RoundEnd)?;
    let sent = sent_at(alloc, state, index)?;
    match sent.first() {
        Some(sent) => Ok(sent.frame.clone()?),
        None => Err(missing()),
    }
}

/// Opens height 1 and its first round, and returns the replica's report.
fn open_round(alloc: Global, state: &mut State<AnyKind>) -> Result<Bytes, Fail> {
    state.apply(Event::Propose(Height::new(1)))?;
    end_round(alloc, state)
}

/// Whether the replica reads the frame.
fn reads(state: &mut State<AnyKind>, bytes: Bytes) -> Result<bool, Fail> {
    let index = state.apply(Event::Deliver(bytes))?;
    match state.entry(index) {
        Some(entry) => Ok(matches!(entry.reply(), ReplyView::Delivered(Ok(())))),
        None => Ok(false),
    }
}

/// The lock of phase 1, which its owner makes of its own report and those of the others.
fn lock_of(
    alloc: Global,
    owner: &mut State<AnyKind>,
    others: &mut [State<AnyKind>],
) -> Result<Bytes, Fail> {
    let own = open_round(alloc, owner)?;
    reads(owner, own)?;
    for other in others.iter_mut() {
        let report = open_round(alloc, other)?;
        reads(owner, report)?;
    }
    end_round(alloc, owner)
}

/// Checks these parts, and hands the replica the answers, as a worker does.
fn prime<R: Threads + Sync>(
    rt: &R,
    alloc: Global,
    state: &mut State<AnyKind>,
    parts: &[SignedPart<'_>],
) -> Result<(), Fail> {
    let ring: KeyRing = state.ring().copy()?;
    let answers = verify_all(rt, alloc, &ring, parts, 2, &NoGate)?;
    state.prime(&ring, parts, &answers);
    Ok(())
}

/// The same for the frames' own parts.
fn prime_own<R: Threads + Sync>(
    rt: &R,
    alloc: Global,
    state: &mut State<AnyKind>,
    frames: &[Frame],
) -> Result<(), Fail> {
    let parts = unknown_parts(alloc, state.verifier(), frames)?;
    prime(rt, alloc, state, &parts)
}

/// The same for the reports in the proofs of the frames that are signed.
fn prime_reports<R: Threads + Sync>(
    rt: &R,
    alloc: Global,
    state: &mut State<AnyKind>,
    frames: &[Frame],
) -> Result<(), Fail> {
    let parts = unknown_reports(alloc, state.config(), state.verifier(), frames)?;
    prime(rt, alloc, state, &parts)
}

/// Checks nothing of the frames, their own parts, or the reports of their proofs, too.
fn prime_some<R: Threads + Sync>(
    rt: &R,
    alloc: Global,
    state: &mut State<AnyKind>,
    frames: &[Frame],
    checked: u8,
) -> Result<(), Fail> {
    if checked > 0 {
        prime_own(rt, alloc, state, frames)?;
    }
    if checked > 1 {
        prime_reports(rt, alloc, state, frames)?;
    }
    Ok(())
}

/// How many signatures the replica hashes to read the lock in its second round, after a worker checked so much; `None` if it
/// doesn't read it.
fn hashes_of<R: Threads + Sync>(
    rt: &R,
    alloc: Global,
    reader: &mut State<AnyKind>,
    lock: Bytes,
    checked: u8,
) -> Result<Option<u64>, Fail> {
    open_round(alloc, reader)?;
    reader.apply(Event::RoundEnd)?;
    let version = reader.config().frames;
    let frames = arrived_frames(version, alloc, &[lock.clone()?])?;
    prime_some(rt, alloc, reader, &frames, checked)?;
    if reads(reader, lock)? {
        Ok(Some(reader.verifier().computed()))
    } else {
        Ok(None)
    }
}

/// The same for replica 0 and the lock that replica 1 makes of the reports of replicas 1 to 3.
fn hashes<R: RandomSource + Threads + Sync>(
    rt: &R,
    alloc: Global,
    checked: u8,
) -> Result<Option<u64>, Fail> {
    let mut states = replicas(rt, alloc, &four()?)?;
    if states.len() < 2 {
        return Err(missing());
    }
    let mut others = states.split_off(2)?;
    let (Some(mut owner), Some(mut reader)) = (states.pop(), states.pop()) else {
        return Err(missing());
    };
    let lock = lock_of(alloc, &mut owner, others.as_mut_slice())?;
    hashes_of(rt, alloc, &mut reader, lock, checked)
}

/// Of what arrived, the number of frames, of those whose signatures the replica would check, and of those among them of
/// which it doesn't know whether they are signed.
fn counts(alloc: Global, state: &State<AnyKind>, arrived: &[Bytes]) -> Result<[usize; 3], Fail> {
    let mut frames = arrived_frames(state.config().frames, alloc, arrived)?;
    let all = frames.len();
    keep_checked(state, &mut frames);
    let parts = unknown_parts(alloc, state.verifier(), &frames)?;
    Ok([all, frames.len(), parts.len()])
}

/// The same for a report of the first round that arrived twice, with bytes that are no frame between: before the replica opens
/// its height, in the round, once the answer is known, once the report is read, and in the next round.
fn counts_of<R: Threads + Sync>(
    rt: &R,
    alloc: Global,
    reader: &mut State<AnyKind>,
    report: Bytes,
) -> Result<[[usize; 3]; 5], Fail> {
    let arrived = [
        report.clone()?,
        Bytes::from_static(b"no frame"),
        report.clone()?,
    ];
    let closed = counts(alloc, reader, &arrived)?;
    open_round(alloc, reader)?;
    let open = counts(alloc, reader, &arrived)?;
    let frames = arrived_frames(reader.config().frames, alloc, &arrived)?;
    prime_own(rt, alloc, reader, &frames)?;
    let known = counts(alloc, reader, &arrived)?;
    reads(reader, report)?;
    let read = counts(alloc, reader, &arrived)?;
    reader.apply(Event::RoundEnd)?;
    Ok([closed, open, known, read, counts(alloc, reader, &arrived)?])
}

fn all_counts<R: RandomSource + Threads + Sync>(
    rt: &R,
    alloc: Global,
) -> Result<[[usize; 3]; 5], Fail> {
    let mut states = replicas(rt, alloc, &four()?)?;
    let (Some(mut sender), Some(mut reader)) = (states.pop(), states.pop()) else {
        return Err(missing());
    };
    let report = open_round(alloc, &mut sender)?;
    counts_of(rt, alloc, &mut reader, report)
}

/// A replica's report, and another replica in its round, of a cluster with frames of this version.
fn report_and_reader<R: RandomSource>(
    rt: &R,
    alloc: Global,
    version: u8,
) -> Result<(Bytes, State<AnyKind>), Fail> {
    let mut states = replicas(rt, alloc, &four_with_frames(version)?)?;
    let (Some(mut sender), Some(mut reader)) = (states.pop(), states.pop()) else {
        return Err(missing());
    };
    let report = open_round(alloc, &mut sender)?;
    open_round(alloc, &mut reader)?;
    Ok((report, reader))
}

/// The same for a report of version 1 and one of version 2, at a replica whose cluster's frames have version 1, and at one whose
/// cluster's frames have version 2.
fn counts_of_versions<R: RandomSource>(rt: &R, alloc: Global) -> Result<[[usize; 3]; 4], Fail> {
    let (first, reader_of_first) = report_and_reader(rt, alloc, 1)?;
    let (second, reader_of_both) = report_and_reader(rt, alloc, 2)?;
    Ok([
        counts(alloc, &reader_of_first, &[first.clone()?])?,
        counts(alloc, &reader_of_first, &[second.clone()?])?,
        counts(alloc, &reader_of_both, &[first])?,
        counts(alloc, &reader_of_both, &[second])?,
    ])
}

/// Why the replica ignores the frame before it checks its signature, if it does.
fn cause_of(
    alloc: Global,
    state: &State<AnyKind>,
    bytes: &Bytes,
) -> Result<Result<(), Ignored>, Fail> {
    match Frame::parse(alloc, bytes.clone()?) {
        Ok(frame) => Ok(state.cause_before_signature(&frame)),
        Err(_) => Err(missing()),
    }
}

/// That of another's report: before the replica opens its height, in the round, once it is read, and in the next round.
fn causes_of(
    alloc: Global,
    reader: &mut State<AnyKind>,
    report: &Bytes,
) -> Result<[Result<(), Ignored>; 4], Fail> {
    let closed = cause_of(alloc, reader, report)?;
    open_round(alloc, reader)?;
    let open = cause_of(alloc, reader, report)?;
    reads(reader, report.clone()?)?;
    let read = cause_of(alloc, reader, report)?;
    reader.apply(Event::RoundEnd)?;
    Ok([closed, open, read, cause_of(alloc, reader, report)?])
}

fn causes<R: RandomSource>(rt: &R, alloc: Global) -> Result<[Result<(), Ignored>; 4], Fail> {
    let mut states = replicas(rt, alloc, &four()?)?;
    let (Some(mut sender), Some(mut reader)) = (states.pop(), states.pop()) else {
        return Err(missing());
    };
    let report = open_round(alloc, &mut sender)?;
    causes_of(alloc, &mut reader, &report)
}

#[test]
fn a_worker_checks_what_the_replica_would_check_and_does_not_know(
    rt: HostRuntime,
) -> Result<(), Fail> {
    let counts = all_counts(&rt, rt.alloc())?;
    assert_eq!(rt;
        counts,
        [[1, 0, 0], [1, 1, 1], [1, 1, 0], [1, 0, 0], [1, 0, 0]]
    );
    Ok(())
}

// A report of version 2 is malformed for a cluster with frames of version 1, so its signature isn't checked.
#[test]
fn a_worker_checks_frames_of_the_versions_that_its_cluster_reads(
    rt: HostRuntime,
) -> Result<(), Fail> {
    let counts = counts_of_versions(&rt, rt.alloc())?;
    assert_eq!(rt; counts, [[1, 1, 1], [0, 0, 0], [1, 1, 1], [1, 1, 1]]);
    Ok(())
}

#[test]
fn a_replica_knows_what_it_ignores_without_a_check(rt: HostRuntime) -> Result<(), Fail> {
    let causes = causes(&rt, rt.alloc())?;
    assert_eq!(rt;
        causes,
        [
            Err(Ignored::NoRow),
            Ok(()),
            Err(Ignored::Repeated),
            Err(Ignored::WrongRound)
        ]
    );
    Ok(())
}

// A lock has its own signature, and three in its proof.
#[test]
fn a_replica_hashes_what_it_does_not_know(rt: HostRuntime) -> Result<(), Fail> {
    assert_eq!(rt; hashes(&rt, rt.alloc(), 0)?, Some(4));
    assert_eq!(rt; hashes(&rt, rt.alloc(), 1)?, Some(3));
    assert_eq!(rt; hashes(&rt, rt.alloc(), 2)?, Some(0));
    Ok(())
}

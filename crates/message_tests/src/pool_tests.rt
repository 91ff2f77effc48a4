//! The signatures of several frames, checked by several threads.

use bytes::Bytes;
use signed_frames::{Frame, SignedPart};
use std::alloc::{AllocError, Global};
use std::sync::atomic::{AtomicBool, AtomicU64, Ordering};
use std::test::Fail;
use std::thread;
use std::thread::Threads;
use test_support::{TestCluster, report_bytes};
use verify_pool::{Gate, NoGate, verify_all};

/// How often a check that waits looks for the end of the other one. After each look it yields the processor.
const MAX_TURNS: u32 = 1_000_000;

/// The check of one part starts only after the check of another part has ended, or after this number of looks for its end.
#[derive(Drop)]
struct OrderGate {
    first: usize,
    second: usize,
    looks: u32,
    has_ended: AtomicBool,
    note: AtomicBool,
}

impl OrderGate {
    fn new(first: usize, second: usize, looks: u32) -> Self {
        OrderGate {
            first,
            second,
            looks,
            has_ended: AtomicBool::new(false),
            note: AtomicBool::new(false),
        }
    }

    // Whether the first check ends within the number of looks.
    fn waits(&self) -> bool {
        for _ in 0..self.looks {
            if self.has_ended.load(Ordering::SeqCst) {
                return true;
            }
            thread::yield_now();
        }
        false
    }

    // Whether the second check started before the first had ended.
    fn has_note(&self) -> bool {
        self.note.load(Ordering::SeqCst)
    }
}

impl Gate for OrderGate {
    fn before(&self, part: usize) {
        if part == self.second && !self.waits() {
            self.note.store(true, Ordering::SeqCst);
        }
    }

    fn after(&self, part: usize, _answer: bool) {
        if part == self.first {
            self.has_ended.store(true, Ordering::SeqCst);
        }
    }
}

/// Counts the checks that started, those that ended, and the signatures that were valid. Each check adds one more than its
/// part's place to the first two.
#[derive(Drop)]
struct CountingGate {
    started: AtomicU64,
    ended: AtomicU64,
    valid: AtomicU64,
}

impl CountingGate {
    fn new() -> Self {
        CountingGate {
            started: AtomicU64::new(0),
            ended: AtomicU64::new(0),
            valid: AtomicU64::new(0),
        }
    }

    fn counts(&self) -> [u64; 3] {
        [
            self.started.load(Ordering::SeqCst),
            self.ended.load(Ordering::SeqCst),
            self.valid.load(Ordering::SeqCst),
        ]
    }
}

impl Gate for CountingGate {
    fn before(&self, part: usize) {
        self.started
            .fetch_add((part as u64).wrapping_add(1), Ordering::SeqCst);
    }

    fn after(&self, part: usize, answer: bool) {
        self.ended
            .fetch_add((part as u64).wrapping_add(1), Ordering::SeqCst);
        self.valid.fetch_add(u64::from(answer), Ordering::SeqCst);
    }
}

// The frame of a report whose signer is said to be `signer`, signed by replica `by`.
fn frame_of(alloc: Global, cluster: &mut TestCluster, signer: u8, by: u8) -> Option<Frame> {
    let bytes = cluster.frame(by, &report_bytes(1, 1, signer, b'x')).ok()?;
    Frame::parse(alloc, Bytes::from_vec(bytes).ok()?).ok()
}

// The frames of reports with these signers, each signed by the replica beside it.
fn frames_of(alloc: Global, cluster: &mut TestCluster, signers: &[(u8, u8)]) -> Option<Vec<Frame>> {
    let mut frames = Vec::new(alloc);
    for (signer, by) in signers {
        frames.push(frame_of(alloc, cluster, *signer, *by)?).ok()?;
    }
    Some(frames)
}

// Two frames that replicas 0 and 1 signed.
fn two(alloc: Global, cluster: &mut TestCluster) -> Option<Vec<Frame>> {
    frames_of(alloc, cluster, &[(0, 0), (1, 1)])
}

// Five frames: the third is signed by another replica than it says, and the last names a replica without a key.
fn five(alloc: Global, cluster: &mut TestCluster) -> Option<Vec<Frame>> {
    frames_of(alloc, cluster, &[(0, 0), (1, 1), (2, 0), (3, 3), (4, 3)])
}

// The own parts of the frames.
fn parts_of(alloc: Global, frames: &[Frame]) -> Result<Vec<SignedPart<'_>>, AllocError> {
    let mut parts = Vec::new(alloc);
    for frame in frames {
        parts.push(frame.signed_part())?;
    }
    Ok(parts)
}

// Whether the answers for the frames are these.
fn answers_are<R: Threads + Sync, G: Gate + Sync>(
    rt: &R,
    alloc: Global,
    cluster: &TestCluster,
    frames: &[Frame],
    workers: u8,
    gate: &G,
    wanted: &[bool],
) -> Result<bool, AllocError> {
    let parts = parts_of(alloc, frames)?;
    let answers = verify_all(rt, alloc, cluster.ring(), &parts, workers, gate)?;
    Ok(answers.as_slice() == wanted)
}

// Whether both signatures of two frames are found valid, and whether the gate has a note.
fn both_in_order<R: Threads + Sync>(
    rt: &R,
    alloc: Global,
    cluster: &TestCluster,
    frames: &[Frame],
    workers: u8,
    gate: &OrderGate,
) -> Result<(bool, bool), AllocError> {
    let are_valid = answers_are(rt, alloc, cluster, frames, workers, gate, &[true, true])?;
    Ok((are_valid, gate.has_note()))
}

// Two checks run at the same time: whichever must wait for the other does, and both end without a note. With one worker the
// check that waits would run first, so it looks once and leaves a note.
#[test]
fn two_frames_are_checked_at_the_same_time(rt: HostRuntime) -> Result<(), Fail> {
    let alloc = rt.alloc();
    let mut cluster = TestCluster::new(alloc, 4, 1)?;
    let frames = two(alloc, &mut cluster).expect(&rt, "two frames");
    let mut results = [(false, false); 3];
    for (result, (first, second, workers, looks)) in results
        .iter_mut()
        .zip([(1, 0, 2, MAX_TURNS), (0, 1, 2, MAX_TURNS), (1, 0, 1, 1)])
    {
        let gate = OrderGate::new(first, second, looks);
        *result = both_in_order(&rt, alloc, &cluster, &frames, workers, &gate)?;
    }
    assert_eq!(rt; results, [(true, false), (true, false), (true, true)]);
    Ok(())
}

// The first number of workers with which the answers for the five frames are wrong, if there is one.
fn first_wrong_number<R: Threads + Sync>(
    rt: &R,
    alloc: Global,
    cluster: &TestCluster,
    frames: &[Frame],
) -> Result<Option<u8>, AllocError> {
    for workers in [0, 1, 2, 3, 16, 255] {
        let wanted = [true, true, false, true, false];
        if !answers_are(rt, alloc, cluster, frames, workers, &NoGate, &wanted)? {
            return Ok(Some(workers));
        }
    }
    Ok(None)
}

#[test]
fn any_number_of_workers_gives_the_same_answers(rt: HostRuntime) -> Result<(), Fail> {
    let alloc = rt.alloc();
    let mut cluster = TestCluster::new(alloc, 4, 1)?;
    let frames = five(alloc, &mut cluster).expect(&rt, "five frames");
    assert_eq!(rt; first_wrong_number(&rt, alloc, &cluster, &frames)?, None);
    assert!(rt; answers_are(&rt, alloc, &cluster, &[], 16, &NoGate, &[])?);
    Ok(())
}

// The gate is called before and after each check, once for each frame.
#[test]
fn the_gate_is_called_for_each_frame(rt: HostRuntime) -> Result<(), Fail> {
    let alloc = rt.alloc();
    let mut cluster = TestCluster::new(alloc, 4, 1)?;
    let frames = five(alloc, &mut cluster).expect(&rt, "five frames");
    let gate = CountingGate::new();
    let parts = parts_of(alloc, &frames)?;
    let _answers = verify_all(&rt, alloc, cluster.ring(), &parts, 3, &gate)?;
    assert_eq!(rt; gate.counts(), [15, 15, 3]);
    Ok(())
}

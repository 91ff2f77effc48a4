//! Which locks are valid.

use super::frames::{check, parsed, parsed_lock};
use key_ring::KeyRing;
use lock_proofs::{LockFault, LockFrame, is_signed};
use std::alloc::Global;
use test_support::{TestCluster, lock_bytes, report_bytes};

// Whether the lock with these bytes has this fault.
fn has_fault(
    alloc: Global,
    cluster: &TestCluster,
    bytes: &[u8],
    wanted: Option<LockFault>,
) -> bool {
    match check(alloc, &cluster.config(), cluster.ring(), bytes) {
        Some(checked) => checked.err() == wanted,
        None => false,
    }
}

// Whether a lock is on one transaction, of this owner and phase, and has the frame of these bytes.
fn has_fields(lock: &LockFrame, owner: u8, phase: u32, bytes: &[u8]) -> bool {
    lock.frame().as_bytes() == bytes
        && lock.lock().signer.number() == owner
        && lock.phase().number() == phase
        && lock.value().transactions().len() == 1
}

// Whether the lock of phase 1 and its owner has these bytes after it was checked.
fn is_accepted(alloc: Global, cluster: &TestCluster, bytes: &[u8]) -> bool {
    match check(alloc, &cluster.config(), cluster.ring(), bytes) {
        Some(Ok(lock)) => has_fields(&lock, 1, 1, bytes),
        _ => false,
    }
}

// Whether the lock of phase 2 and its owner has these bytes, unchecked.
fn is_taken_unchecked(alloc: Global, bytes: &[u8]) -> bool {
    match parsed_lock(alloc, bytes) {
        Some(frame) => has_fields(&LockFrame::of_own(frame), 2, 2, bytes),
        None => false,
    }
}

#[test]
fn accepts_a_lock_with_three_reports_among_four(rt: HostRuntime) {
    let mut cluster = TestCluster::new(rt.alloc(), 4, 1).expect(&rt, "a cluster");
    let first = cluster.lock_frame(1, 1, b'a', 3).expect(&rt, "a lock");
    assert!(rt; is_accepted(rt.alloc(), &cluster, &first));
    let second = cluster.lock_frame(2, 2, b'a', 3).expect(&rt, "a lock");
    assert!(rt; is_taken_unchecked(rt.alloc(), &second));
}

// Whether the lock of phase 1 of this owner, with the reports of the first `reports` replicas, has this fault.
fn is_fault(
    alloc: Global,
    cluster: &mut TestCluster,
    (owner, reports): (u8, u8),
    wanted: Option<LockFault>,
) -> bool {
    match cluster.lock_frame(1, owner, b'a', reports) {
        Ok(lock) => has_fault(alloc, cluster, &lock, wanted),
        Err(_) => false,
    }
}

#[test]
fn accepts_a_lock_with_nine_reports_among_thirteen(rt: HostRuntime) {
    let mut cluster = TestCluster::new(rt.alloc(), 13, 4).expect(&rt, "a cluster");
    for &(reports, wanted) in &[(9, None), (8, Some(LockFault::BadProof))] {
        assert!(rt;
            is_fault(rt.alloc(), &mut cluster, (1, reports), wanted),
            "{reports} reports"
        );
    }
}

fn raise_last(bytes: &mut [u8]) {
    if let Some(byte) = bytes.last_mut() {
        *byte = byte.wrapping_add(1);
    }
}

// A lock whose last byte was changed has a bad signature.
#[test]
fn returns_why_a_lock_is_not_valid(rt: HostRuntime) {
    let mut cluster = TestCluster::new(rt.alloc(), 4, 1).expect(&rt, "a cluster");
    for &(lock, wanted) in &[
        ((1, 4), Some(LockFault::BadProof)),
        ((2, 3), Some(LockFault::NotOwner)),
        ((1, 3), None),
    ] {
        assert!(rt;
            is_fault(rt.alloc(), &mut cluster, lock, wanted),
            "{lock:?}"
        );
    }
    let mut lock = cluster.lock_frame(1, 1, b'a', 3).expect(&rt, "a lock");
    raise_last(&mut lock);
    assert!(rt; has_fault(rt.alloc(), &cluster, &lock, Some(LockFault::BadSignature)));
}

fn put_two_reports(cluster: &mut TestCluster, bytes: &mut Vec<u8>) -> Option<()> {
    for replica in 0..2 {
        let report = cluster
            .signed(replica, &report_bytes(1, 1, replica, b'a'))
            .ok()?;
        bytes.extend_from_slice(&report).ok()?;
    }
    Some(())
}

// The frame of the lock of phase 1 on [a=1] with two good reports and this third one.
fn lock_with(alloc: Global, cluster: &mut TestCluster, third: &[u8]) -> Option<Vec<u8>> {
    let mut bytes = Vec::from_slice(alloc, &lock_bytes(1, 1, b'a', 3)).ok()?;
    put_two_reports(cluster, &mut bytes)?;
    bytes.extend_from_slice(third).ok()?;
    cluster.frame(1, &bytes).ok()
}

// Whether that lock has this fault.
fn is_fault_with(
    alloc: Global,
    cluster: &mut TestCluster,
    third: &[u8],
    wanted: Option<LockFault>,
) -> bool {
    match lock_with(alloc, cluster, third) {
        Some(lock) => has_fault(alloc, cluster, &lock, wanted),
        None => false,
    }
}

// Whether the lock has this fault if its third report is of this height and letter, and this replica signed it in the
// name of replica 2.
fn is_fault_of_third(
    alloc: Global,
    cluster: &mut TestCluster,
    (height, letter, signer): (u8, u8, u8),
    wanted: Option<LockFault>,
) -> bool {
    match cluster.signed(signer, &report_bytes(height, 1, 2, letter)) {
        Ok(third) => is_fault_with(alloc, cluster, &third, wanted),
        Err(_) => false,
    }
}

// A report whose last byte was changed is no proof.
#[test]
fn looks_into_each_report(rt: HostRuntime) {
    let mut cluster = TestCluster::new(rt.alloc(), 4, 1).expect(&rt, "a cluster");
    for &(third, wanted) in &[
        ((1, b'a', 2), None),
        ((2, b'a', 2), Some(LockFault::BadProof)),
        ((1, b'a', 3), Some(LockFault::BadProof)),
        ((1, b'b', 2), Some(LockFault::NotSupporting)),
    ] {
        assert!(rt;
            is_fault_of_third(rt.alloc(), &mut cluster, third, wanted),
            "{third:?}"
        );
    }
    let mut third = cluster
        .signed(2, &report_bytes(1, 1, 2, b'a'))
        .expect(&rt, "a report");
    raise_last(&mut third);
    assert!(rt; is_fault_with(rt.alloc(), &mut cluster, &third, Some(LockFault::BadProof)));
}

// Whether the frame of these bytes is signed, if it is a frame.
fn is_signed_frame(alloc: Global, ring: &KeyRing, bytes: &[u8]) -> Option<bool> {
    let frame = parsed(alloc, bytes)?;
    Some(is_signed(ring, &frame))
}

// Replica 1's report, signed by it and by replica 2.
#[test]
fn a_frame_is_signed_by_its_signer(rt: HostRuntime) {
    let mut cluster = TestCluster::new(rt.alloc(), 4, 1).expect(&rt, "a cluster");
    for &(signer, wanted) in &[(1, true), (2, false)] {
        let frame = cluster
            .frame(signer, &report_bytes(1, 1, 1, b'a'))
            .expect(&rt, "a frame");
        let is_signed = is_signed_frame(rt.alloc(), cluster.ring(), &frame);
        assert!(rt; is_signed == Some(wanted), "{signer}");
    }
}

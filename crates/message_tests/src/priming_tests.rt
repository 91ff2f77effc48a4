//! A verifier takes in what was computed elsewhere of the parts of frames.

use bytes::Bytes;
use signed_frames::{Frame, SignedPart};
use std::alloc::Global;
use std::hash::RandomState;
use std::num::NonZeroUsize;
use std::test::Fail;
use std::thread::Threads;
use test_support::{TestCluster, report_bytes};
use verify_cache::{CheckSignatures, Verifier};
use verify_pool::{NoGate, verify_all};

// A verifier under the cluster's keys that remembers two answers.
fn verifier_under(alloc: Global, random: RandomState, cluster: &TestCluster) -> Option<Verifier> {
    let capacity = NonZeroUsize::new(2)?;
    Verifier::with_capacity(alloc, cluster.ring().copy().ok()?, random, capacity).ok()
}

// The frame of a report of replica `signer`, signed by replica `by`.
fn report_frame(alloc: Global, cluster: &mut TestCluster, signer: u8, by: u8) -> Option<Frame> {
    let bytes = cluster.frame(by, &report_bytes(1, 1, signer, b'x')).ok()?;
    Frame::parse(alloc, Bytes::from_vec(bytes).ok()?).ok()
}

// Reports of replicas 0, 1 and 2, of which the second is signed by replica 0.
fn three(alloc: Global, cluster: &mut TestCluster) -> Option<[Frame; 3]> {
    Some([
        report_frame(alloc, cluster, 0, 0)?,
        report_frame(alloc, cluster, 1, 0)?,
        report_frame(alloc, cluster, 2, 2)?,
    ])
}

// What the verifier answers to the part, and how many checks it computed by then.
fn asks(verifier: &mut Verifier, part: &SignedPart<'_>) -> (bool, u64) {
    let answer = verifier.is_signed(part);
    (answer, verifier.computed())
}

// The answers to the first two frames, once the verifier took in that of the first.
fn after_one(
    verifier: &mut Verifier,
    cluster: &TestCluster,
    frames: &[Frame; 3],
) -> Option<[(bool, u64); 2]> {
    let part = frames[0].signed_part();
    let mut ring = cluster.ring();
    let answer = ring.is_signed(&part);
    verifier.prime_part(ring, &part, answer);
    Some([
        asks(verifier, &part),
        asks(verifier, &frames[1].signed_part()),
    ])
}

// What the verifier knows of the three frames, once it took in the answers to all: there is room for the last two.
fn known_after_all<R: Threads + Sync>(
    rt: &R,
    alloc: Global,
    verifier: &mut Verifier,
    cluster: &TestCluster,
    frames: &[Frame; 3],
) -> Option<[Option<bool>; 3]> {
    let mut parts = Vec::new(alloc);
    for frame in frames {
        parts.push(frame.signed_part()).ok()?;
    }
    let ring = cluster.ring();
    let answers = verify_all(rt, alloc, ring, &parts, 1, &NoGate).ok()?;
    verifier.prime_all(ring, &parts, &answers);
    Some([
        verifier.answer(&frames[0].signed_part()),
        verifier.answer(&frames[1].signed_part()),
        verifier.answer(&frames[2].signed_part()),
    ])
}

#[test]
fn a_primed_part_is_not_computed(rt: HostRuntime) -> Result<(), Fail> {
    let alloc = rt.alloc();
    let mut cluster = TestCluster::new(alloc, 4, 1)?;
    let frames = three(alloc, &mut cluster).expect(&rt, "three frames");
    let random = RandomState::new(&rt)?;
    let mut verifier = verifier_under(alloc, random, &cluster).expect(&rt, "a verifier");
    let answers = after_one(&mut verifier, &cluster, &frames);
    assert_eq!(rt; answers, Some([(true, 0), (false, 1)]));
    Ok(())
}

#[test]
fn a_verifier_remembers_the_last_of_many_primed_parts(rt: HostRuntime) -> Result<(), Fail> {
    let alloc = rt.alloc();
    let mut cluster = TestCluster::new(alloc, 4, 1)?;
    let frames = three(alloc, &mut cluster).expect(&rt, "three frames");
    let random = RandomState::new(&rt)?;
    let mut verifier = verifier_under(alloc, random, &cluster).expect(&rt, "a verifier");
    let known = known_after_all(&rt, alloc, &mut verifier, &cluster, &frames);
    assert_eq!(rt; known, Some([None, Some(false), Some(true)]));
    assert_eq!(rt; verifier.computed(), 0);
    Ok(())
}

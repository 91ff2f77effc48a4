//! What was read in one round, by signer.

use ledger_model::{Ack, AppKind, Batch, Config, Phase, ReplicaId};
use std::alloc::Global;
use tally::Tally;
use test_support::{ack, value};

fn empty<X: Drop>(alloc: Global, replicas: u8, faults: u8) -> Option<Tally<X>> {
    let config = Config::new(replicas, faults, AppKind::KvStore).ok()?;
    Tally::new(alloc, &config).ok()
}

// Whether a replica's statement is stored, if the replica exists.
fn add<X: Drop>(tally: &mut Tally<X>, signer: u8, read: X) -> Option<bool> {
    if signer >= tally.replicas() {
        return None;
    }
    Some(tally.add(ReplicaId::new(signer), read))
}

// Adds letters of replicas 1 and 3 of four, two of replica 3.
fn brings_letters(tally: &mut Tally<char>) -> bool {
    add(tally, 3, 'c') == Some(true)
        && add(tally, 1, 'a') == Some(true)
        && add(tally, 3, 'd') == Some(false)
}

fn got(tally: &Tally<char>, signer: u8) -> Option<char> {
    tally.get(ReplicaId::new(signer)).copied()
}

// Whether the first letter of each signer is stored and counts.
fn has_letters(tally: &Tally<char>) -> bool {
    (got(tally, 0), got(tally, 1)) == (None, Some('a'))
        && (got(tally, 3), got(tally, 4)) == (Some('c'), None)
        && tally.count_where(|read| *read < 'c') == 1
        && tally.places() == [None, Some('a'), None, Some('c')].as_slice()
        && tally.mask() == 10
}

fn has_signers(tally: &Tally<char>, wanted: &[ReplicaId]) -> Option<bool> {
    let signers = tally.signers().ok()?;
    Some(signers.as_slice() == wanted)
}

fn is_cleared(tally: &mut Tally<char>) -> bool {
    tally.clear();
    tally.places() == [None, None, None, None].as_slice() && tally.mask() == 0
}

#[test]
fn the_first_of_a_signer_counts(rt: HostRuntime) {
    let mut tally = empty(rt.alloc(), 4, 1).expect(&rt, "a tally");
    assert!(rt; brings_letters(&mut tally) && has_letters(&tally));
    let signers = [ReplicaId::new(1), ReplicaId::new(3)];
    assert!(rt; has_signers(&tally, &signers) == Some(true));
    assert!(rt; is_cleared(&mut tally));
}

// Adds a statement of each of thirteen replicas. Returns the first replica whose statement isn't stored, if there is one.
fn first_unstored(tally: &mut Tally<u8>) -> Option<u8> {
    for number in 0..13 {
        if add(tally, number, number) != Some(true) {
            return Some(number);
        }
    }
    None
}

// The numbers of signers, of replicas and of stored statements, and the mask.
fn counts_of(tally: &Tally<u8>) -> Option<(usize, u8, usize, u16)> {
    let signers = tally.signers().ok()?.len();
    let stored = tally.count_where(|_| true);
    Some((signers, tally.replicas(), stored, tally.mask()))
}

#[test]
fn every_replica_of_the_greatest_cluster_has_a_place(rt: HostRuntime) {
    let mut tally = empty(rt.alloc(), 13, 4).expect(&rt, "a tally");
    assert_eq!(rt; first_unstored(&mut tally), None);
    assert!(rt; counts_of(&tally) == Some((13, 13, 13, 8191)));
}

// Adds acknowledgements of these replicas, phases and values.
fn add_acks(alloc: Global, acks: &mut Tally<Ack>, sent: &[(u8, u32, &[u8])]) -> Option<()> {
    for &(signer, phase, bytes) in sent {
        add(acks, signer, ack(alloc, phase, signer, bytes).ok()?)?;
    }
    Some(())
}

fn count_of(acks: &Tally<Ack>, phase: u32, value: &Batch) -> usize {
    acks.count_where(|ack| ack.phase == Phase::new(phase) && *value == ack.value)
}

// The number of acknowledgements of `x=1` in phase 2, and in phase 1.
fn counted(alloc: Global, sent: &[(u8, u32, &[u8])]) -> Option<(usize, usize)> {
    let value = value(alloc, b"x=1").ok()?;
    let mut acks = empty(alloc, 4, 1)?;
    add_acks(alloc, &mut acks, sent)?;
    Some((count_of(&acks, 2, &value), count_of(&acks, 1, &value)))
}

#[test]
fn acknowledgements_count_by_phase_and_value(rt: HostRuntime) {
    let sent: [(u8, u32, &[u8]); 4] = [
        (0, 2, b"x=1"),
        (1, 2, b"x=1"),
        (2, 2, b"x=2"),
        (3, 1, b"x=1"),
    ];
    assert!(rt; counted(rt.alloc(), &sent) == Some((2, 1)));
}

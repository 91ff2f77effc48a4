//! The keys of a cluster, each tree computed in a thread of its own, against values of another implementation of RFC 8554.
use crate::replicas::four;
use cluster_setup::{ClusterKeys, all_keys_in_parallel};
use key_ring::{KeyRing, Signer};
use ledger_model::ReplicaId;
use std::test::Fail;

/// The last bytes of the public keys of replicas 0 to 3.
const ENDS: [[u8; 4]; 4] = [
    [0xb0, 0xdf, 0x5d, 0x2b],
    [0x84, 0x6d, 0x3b, 0x99],
    [0x89, 0x60, 0xff, 0x64],
    [0x4f, 0xf6, 0xa6, 0x84],
];

/// Whether the signer has the key of this replica, no leaf used, and the ring has it at the replica's number.
fn is_of(replica: u8, signer: &Signer, ring: &KeyRing) -> bool {
    let key = signer.public();
    key.as_bytes().ends_with(&ENDS[usize::from(replica % 4)])
        && signer.leaves_left() == 32
        && ring.key(ReplicaId::new(replica)).copied() == Some(key)
}

/// The first of four replicas whose index has another key pair, if there is one.
fn first_other(keys: &ClusterKeys) -> Option<u8> {
    for (replica, signer) in (0..4u8).zip(keys.signers.iter()) {
        if !is_of(replica, signer, &keys.ring) {
            return Some(replica);
        }
    }
    None
}

/// Whether there are four signers, and no fifth public key.
fn has_four(keys: &ClusterKeys) -> bool {
    keys.signers.len() == 4 && keys.ring.key(ReplicaId::new(4)).is_none()
}

#[test]
fn each_replica_has_the_key_pair_of_its_number(rt: HostRuntime) -> Result<(), Fail> {
    let keys = all_keys_in_parallel(&rt, rt.alloc(), &four()?)?;
    assert_eq!(rt; first_other(&keys), None);
    assert!(rt; has_four(&keys));
    Ok(())
}

//! Key pairs that use each leaf once, and the keys of a cluster.

use super::vectors::{IDENTIFIER, MESSAGE, ROOT, SEED};
use key_ring::{KeyRing, SignFault, Signer};
use ledger_model::ReplicaId;
use lm_ots::{Identifier, Params, Seed, TreeHeight, Width};
use lms_tree::{PublicKey, verify};
use std::alloc::Global;

fn small(alloc: Global, width: Width) -> Option<Signer> {
    let params = Params {
        width,
        height: TreeHeight::H5,
    };
    Signer::new(alloc, params, Identifier::new(IDENTIFIER), Seed::new(SEED)).ok()
}

// The key of that signer.
fn small_key(alloc: Global, width: Width) -> Option<PublicKey> {
    Some(small(alloc, width)?.public())
}

#[test]
fn a_signer_has_the_key_of_its_seed(rt: HostRuntime) {
    let signer = small(rt.alloc(), Width::W8).expect(&rt, "a signer");
    assert!(rt; &signer.public().as_bytes()[24..] == ROOT.as_slice());
    assert!(rt; signer.leaves_left() == 32);
}

// Whether it signs with this leaf.
fn signs_with(alloc: Global, signer: &mut Signer, key: &PublicKey, leaf: u8) -> bool {
    match signer.sign(alloc, MESSAGE) {
        Ok(signature) => {
            signature.len() == 2348
                && &signature[..4] == [0, 0, 0, leaf].as_slice()
                && verify(key, MESSAGE, &signature)
        }
        Err(_) => false,
    }
}

fn is_exhausted(alloc: Global, signer: &mut Signer) -> bool {
    signer.leaves_left() == 0 && signer.sign(alloc, MESSAGE).err() == Some(SignFault::Exhausted)
}

// Thirty-two signatures verify, by leaves 0 to 31; the next call changes nothing.
#[test]
fn each_leaf_signs_once(rt: HostRuntime) {
    let mut signer = small(rt.alloc(), Width::W4).expect(&rt, "a signer");
    let key = signer.public();
    for leaf in 0..32u8 {
        assert!(rt; signer.leaves_left() == 32 - u32::from(leaf), "{leaf}");
        assert!(rt; signs_with(rt.alloc(), &mut signer, &key, leaf), "{leaf}");
    }
    for call in 33u8..35 {
        assert!(rt; is_exhausted(rt.alloc(), &mut signer), "call {call}");
    }
}

fn ring_of(alloc: Global, keys: [PublicKey; 2]) -> Option<KeyRing> {
    Some(KeyRing::new(Vec::from_slice(alloc, &keys).ok()?))
}

// Whether the ring has these keys at replicas 0 and 1, and no other.
fn has_keys(ring: &KeyRing, first: PublicKey, second: PublicKey) -> bool {
    ring.key(ReplicaId::new(0)).copied() == Some(first)
        && ring.key(ReplicaId::new(1)).copied() == Some(second)
        && ring.key(ReplicaId::new(2)).is_none()
}

#[test]
fn keys_stand_at_their_replicas(rt: HostRuntime) {
    let wide = small_key(rt.alloc(), Width::W8).expect(&rt, "a key");
    let narrow = small_key(rt.alloc(), Width::W4).expect(&rt, "a key");
    let ring = ring_of(rt.alloc(), [wide, narrow]).expect(&rt, "a ring");
    assert!(rt; has_keys(&ring, wide, narrow));
}

fn copied_ring(alloc: Global, keys: [PublicKey; 2]) -> Option<KeyRing> {
    ring_of(alloc, keys)?.copy().ok()
}

// Replicas and messages, and whether replica 1's signature of `MESSAGE` verifies for them.
const VERIFIED: [(u8, &[u8], bool); 4] = [
    (0, MESSAGE, false),
    (1, MESSAGE, true),
    (2, MESSAGE, false),
    (1, b"another", false),
];

// The index of the first case that the ring contradicts for replica 1's signature, if there is one.
fn first_wrong_case(ring: &KeyRing, signature: &[u8]) -> Option<usize> {
    for (index, &(replica, message, verifies)) in VERIFIED.iter().enumerate() {
        if ring.verifies(ReplicaId::new(replica), message, signature) != verifies {
            return Some(index);
        }
    }
    None
}

// The same for a signature of this signer, in a ring that has its key at replica 1, and another key.
fn first_wrong_of(alloc: Global, signer: &mut Signer) -> Option<Option<usize>> {
    let other = small_key(alloc, Width::W8)?;
    let ring = copied_ring(alloc, [other, signer.public()])?;
    let signature = signer.sign(alloc, MESSAGE).ok()?;
    Some(first_wrong_case(&ring, &signature))
}

// It verifies under the signer's key only, and not if the ring has no key.
#[test]
fn a_ring_verifies_under_the_signers_key(rt: HostRuntime) {
    let mut signer = small(rt.alloc(), Width::W4).expect(&rt, "a signer");
    assert_eq!(rt; first_wrong_of(rt.alloc(), &mut signer), Some(None));
}

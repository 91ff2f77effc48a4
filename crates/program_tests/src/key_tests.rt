//! Keys of a cluster, against values of another implementation of RFC 8554 and of `docs/FORMATS.md`.
//! `tests/end_to_end.sh` compares frames of these keys.
use cluster_setup::{ClusterSeed, key_pair, signer_and_ring};
use hex::FromHex;
use key_ring::{KeyRing, Signer};
use ledger_model::{AppKind, Config, ReplicaId};
use lm_ots::{Params, TreeHeight, Width};
use lms_tree::PublicKey;
use std::process::Abort;
use std::test::Fail;

/// The public keys of replicas 0 to 3 under the seed of 32 zeros, with W4 and H5.
pub(crate) const PUBLIC_KEYS: [&str; 4] = [
    "0000000500000003eb142b0cae0baa72a767ebc0823d1be9d6c2507d2ec8ff28841676d189d72a81a798345dea50263fd12fb9c4b0df5d2b",
    "000000050000000343b9847adfd48a8699d4d494fd7a4ca087f4199325a513c704a728a65ad1ad77358cb9288f1d97f4d219bd0a846d3b99",
    "0000000500000003dc69a7ca35555475677468dfdbaab447547b13d1a3b48079f80f707fabcdd6b7768ec57203ce94da495067258960ff64",
    "0000000500000003f66c0b260c855a013f2d676b22818015a959e50a5c14bcc4cce34692c8700c924123edb73570dee5cca352294ff6a684",
];

/// The public key of replica 2 under the seed of 32 bytes 11, with W8 and H5.
const WIDE_KEY: &str =
    "000000050000000458df850afd9e2a98cc5fcec571730c3495ae9979226326196dafa0409b6154875dec60117d0e5b0e11743d66f2ffebbe";

fn cluster<R: Abort>(rt: &R, width: Width, seed: [u8; 32]) -> ClusterSeed {
    let config = Config::new(4, 1, AppKind::KvStore).expect(rt, "4 replicas, 1 of which may lie");
    let params = Params {
        width,
        height: TreeHeight::H5,
    };
    ClusterSeed {
        config,
        params,
        seed,
    }
}

/// Whether the key has these bytes.
fn is_spelled(key: &PublicKey, digits: &str) -> bool {
    <[u8; 56] as FromHex>::from_hex(digits) == Ok(*key.as_bytes())
}

/// The first of four replicas whose key in the ring differs.
fn first_other(ring: &KeyRing) -> Option<u8> {
    for replica in 0..4u8 {
        match ring.key(ReplicaId::new(replica)) {
            Some(key) if is_spelled(key, PUBLIC_KEYS[usize::from(replica)]) => {}
            _ => return Some(replica),
        }
    }
    None
}

/// Whether the signer has replica 1's key, and all of its leaves.
fn is_replica_1(signer: &Signer) -> bool {
    is_spelled(&signer.public(), PUBLIC_KEYS[1]) && signer.leaves_left() == 32
}

#[test]
fn a_ring_has_the_key_of_each_replica(rt: HostRuntime) -> Result<(), Fail> {
    let cluster = cluster(&rt, Width::W4, [0; 32]);
    let (signer, ring) = signer_and_ring(rt.alloc(), &cluster, ReplicaId::new(1))?;
    assert_eq!(rt; first_other(&ring), None);
    assert!(rt; ring.key(ReplicaId::new(4)).is_none() && is_replica_1(&signer));
    Ok(())
}

#[test]
fn a_key_pair_is_of_its_seed_and_width(rt: HostRuntime) -> Result<(), Fail> {
    let cluster = cluster(&rt, Width::W8, [0x11; 32]);
    let signer = key_pair(rt.alloc(), &cluster, ReplicaId::new(2))?;
    assert!(rt; is_spelled(&signer.public(), WIDE_KEY));
    Ok(())
}

//! Replicas that sign, each with a key pair of its own.

use crate::{BuildFault, lock_bytes, report_bytes};
use key_ring::{KeyRing, Signer};
use ledger_model::{AppKind, Config};
use lm_ots::{Identifier, Params, Seed, TreeHeight, Width};
use std::alloc::Global;

/// The length of a signature in two bytes, 2348.
const SIGNATURE_LEN: [u8; 2] = [0x09, 0x2c];

/// Replicas that sign, each with a key pair of its own, of width 4 and height 5. The key pair of replica `r` has an identifier
/// and a seed whose bytes are all `r + 1`.
pub struct TestCluster {
    alloc: Global,
    config: Config,
    ring: KeyRing,
    signers: Vec<Signer>,
}

// An own `Drop` keeps proofs short: an owner drops it by one call. See docs/WORKING.md.
impl Drop for TestCluster {
    fn drop(self) {
        let TestCluster {
            alloc: _alloc,
            config: _config,
            ring: _ring,
            signers: _signers,
        } = self;
    }
}

fn signer_of(alloc: Global, number: u8) -> Result<Signer, BuildFault> {
    let params = Params {
        width: Width::W4,
        height: TreeHeight::H5,
    };
    let byte = number.wrapping_add(1);
    let (identifier, seed) = (Identifier::new([byte; 16]), Seed::new([byte; 32]));
    Ok(Signer::new(alloc, params, identifier, seed)?)
}

impl TestCluster {
    /// A cluster of `replicas` replicas, of which `faults` may lie.
    pub fn new(alloc: Global, replicas: u8, faults: u8) -> Result<Self, BuildFault> {
        let Ok(config) = Config::new(replicas, faults, AppKind::KvStore) else {
            return Err(BuildFault::NoReplica);
        };
        let mut keys = Vec::new(alloc);
        let mut signers = Vec::new(alloc);
        for number in 0..replicas {
            let signer = signer_of(alloc, number)?;
            keys.push(signer.public())?;
            signers.push(signer)?;
        }
        Ok(TestCluster {
            alloc,
            config,
            ring: KeyRing::new(keys),
            signers,
        })
    }

    /// The configuration of the cluster.
    pub fn config(&self) -> Config {
        self.config
    }

    /// The public keys of the replicas.
    pub fn ring(&self) -> &KeyRing {
        &self.ring
    }

    /// A replica's signature of the statement.
    pub fn signature(&mut self, replica: u8, statement: &[u8]) -> Result<Vec<u8>, BuildFault> {
        let Some(signer) = self.signers.get_mut(usize::from(replica)) else {
            return Err(BuildFault::NoReplica);
        };
        match signer.sign(self.alloc, statement) {
            Ok(signature) => Ok(signature),
            Err(_) => Err(BuildFault::NotSigned),
        }
    }

    /// The statement, followed by the length of a replica's signature, and the signature.
    pub fn signed(&mut self, replica: u8, statement: &[u8]) -> Result<Vec<u8>, BuildFault> {
        let signature = self.signature(replica, statement)?;
        let mut bytes = Vec::from_slice(self.alloc, statement)?;
        bytes.extend_from_slice(&SIGNATURE_LEN)?;
        bytes.extend_from_slice(&signature)?;
        Ok(bytes)
    }

    /// The frame of a statement that a replica signs.
    pub fn frame(&mut self, replica: u8, statement: &[u8]) -> Result<Vec<u8>, BuildFault> {
        let body = self.signed(replica, statement)?;
        let Ok(len) = u32::try_from(body.len()) else {
            return Err(BuildFault::NoFrame);
        };
        let mut bytes = Vec::from_slice(self.alloc, &len.to_be_bytes())?;
        bytes.extend_from_slice(&body)?;
        Ok(bytes)
    }

    /// The frame of a lock at height 1 on the value `[x=1]`, where `x` is a letter, with the reports of the first
    /// `reports` replicas.
    pub fn lock_frame(
        &mut self,
        phase: u8,
        owner: u8,
        letter: u8,
        reports: u8,
    ) -> Result<Vec<u8>, BuildFault> {
        let mut bytes = Vec::from_slice(self.alloc, &lock_bytes(phase, owner, letter, reports))?;
        for replica in 0..reports {
            let report = self.signed(replica, &report_bytes(1, phase, replica, letter))?;
            bytes.extend_from_slice(&report)?;
        }
        self.frame(owner, &bytes)
    }
}

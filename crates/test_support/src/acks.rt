//! Builds acknowledgements.

use crate::{BuildFault, value};
use ledger_model::{Ack, Height, Phase, ReplicaId, Version};
use std::alloc::Global;

/// The acknowledgement at height 1 of the lock of a phase on the batch of one transaction.
pub fn ack(alloc: Global, phase: u32, signer: u8, bytes: &[u8]) -> Result<Ack, BuildFault> {
    Ok(Ack {
        version: Version::One,
        height: Height::new(1),
        phase: Phase::new(phase),
        signer: ReplicaId::new(signer),
        value: value(alloc, bytes)?,
    })
}

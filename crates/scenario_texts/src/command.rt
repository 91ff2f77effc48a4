//! The commands of a scenario.
ghost use Rattle.std.specs.Prelude.{◌≤◌, length};
ghost use Rattle.ledger_model.specs.Versions.{batch_limit};

use bytes::Bytes;
use ledger_model::{Batch, Height, Key, Phase, ReplicaId, Version};

/// Where a lie goes.
#[derive(Clone, Copy, Debug, PartialEq, Eq)]
pub enum Towards {
    /// To the replica of this number.
    One(u32),
    /// To all replicas.
    All,
}

/// A statement that a liar makes.
#[derive(Drop)]
pub struct Lie {
    /// The version of the statement, which is that of the cluster's frames.
    pub version: Version,
    pub liar: ReplicaId,
    /// At least 1.
    pub height: Height,
    /// At least 1.
    pub phase: Phase,
    /// At most 16 or 64 transactions, by the version.
    pub batch: Batch,
    pub to: Towards,
    ghost some_height: { 1 ≤ height },
    ghost some_phase: { 1 ≤ phase },
    ghost fits: { length batch ≤ batch_limit version },
}

/// A command of a scenario. A replica's number may be one that no replica has.
#[derive(Drop)]
pub enum Command {
    /// `submit R TX`
    Submit { replica: u32, bytes: Bytes },
    /// `propose R H`
    Propose { replica: u32, height: Height },
    /// `end R`: the end of the replica's round.
    End { replica: u32 },
    /// `pass FROM INDEX TO`
    Pass { from: u32, index: u32, to: u32 },
    /// `inject TO HEX`
    Inject { to: u32, bytes: Bytes },
    /// `execute R`
    Execute { replica: u32 },
    /// `query R KEY`
    Query { replica: u32, key: Key },
    /// `retire R H`
    Retire { replica: u32, floor: Height },
    /// `info R`
    Info { replica: u32 },
    /// `silent`
    Silent,
    /// `round`
    Round,
    /// `lie-report L H K BATCH TO`
    LieReport(Lie),
    /// `lie-lock L H K BATCH TO`
    LieLock(Lie),
    /// `lie-stale L H K J BATCH TO`: a lock whose proof has reports of the phase J, at least 1.
    LieStale { lie: Lie, source: Phase },
    /// `lie-ack L H K BATCH TO`
    LieAck(Lie),
}

//! The notices of a running cluster to its operator, one line each.
use ledger_model::ReplicaId;
use log::{Level, LevelFilter};
use std::fmt;

/// A notice to the operator.
#[derive(Clone, Copy, Debug, PartialEq, Eq)]
pub enum Notice {
    /// The cluster uses the default seed. If it serves clients, every operator gets the notice, a quiet one too.
    DefaultSeed {
        serves: bool,
    },
    /// The keys of this many replicas are being made.
    Keys(u8),
    /// A replica has opened this round, and has this many blocks and signatures.
    Round {
        replica: ReplicaId,
        round: u32,
        blocks: u32,
        signatures: u32,
    },
    /// A block was run, and this replica was the first to run it.
    Block {
        height: u32,
        replica: ReplicaId,
        round: u32,
    },
    /// A replica has become mute.
    Mute {
        replica: ReplicaId,
        round: u32,
        signatures: u32,
    },
    /// A replica's history is nine tenths full.
    NearlyFull {
        replica: ReplicaId,
        entries: usize,
    },
    /// Memory ran out, and this replica lost events or frames.
    Loss(ReplicaId),
    /// The last round has ended.
    RoundsOver,
    /// The last round has ended, and clients are still served.
    ServesOn,
    /// The cluster was asked to stop.
    Stopped,
}

impl Notice {
    /// How important the notice is.
    pub(crate) fn level(&self) -> Level {
        match self {
            Notice::DefaultSeed { .. }
            | Notice::Mute { .. }
            | Notice::NearlyFull { .. }
            | Notice::Loss(_) => Level::Warn,
            Notice::Round { .. } => Level::Debug,
            Notice::Keys(_)
            | Notice::Block { .. }
            | Notice::RoundsOver
            | Notice::ServesOn
            | Notice::Stopped => Level::Info,
        }
    }

    /// Whether an operator gets the notice who asked for those that the filter allows.
    pub(crate) fn is_for(&self, filter: LevelFilter) -> bool {
        filter.allows(self.level()) || matches!(self, Notice::DefaultSeed { serves: true })
    }

    /// Whether the notice is shown in a terminal's line of progress, and left out of a log.
    pub(crate) fn is_progress(&self) -> bool {
        matches!(self, Notice::Keys(_))
    }

    /// Whether the workers have ended, so that no progress follows the notice.
    pub(crate) fn is_end(&self) -> bool {
        matches!(
            self,
            Notice::RoundsOver | Notice::ServesOn | Notice::Stopped
        )
    }
}

impl fmt::Display for Notice {
    fn fmt<W: fmt::Write>(&self, f: &mut fmt::Formatter<W>) -> fmt::Result {
        match self {
            Notice::DefaultSeed { .. } => f.write_str(
                "the seed is the default one, which everybody knows: anybody can forge",
            ),
            Notice::Keys(replicas) => write!(f, "making the keys of {replicas} replicas"),
            Notice::Round {
                replica,
                round,
                blocks,
                signatures,
            } => show_round(f, *replica, *round, *blocks, *signatures),
            Notice::Block {
                height,
                replica,
                round,
            } => show_block(f, *height, *replica, *round),
            Notice::Mute {
                replica,
                round,
                signatures,
            } => show_mute(f, *replica, *round, *signatures),
            Notice::NearlyFull { replica, entries } => show_nearly_full(f, *replica, *entries),
            Notice::Loss(replica) => show_loss(f, *replica),
            Notice::RoundsOver => f.write_str("the rounds are over"),
            Notice::ServesOn => f.write_str(
                "the rounds are over: clients are answered, and what they submit is never run",
            ),
            Notice::Stopped => f.write_str("the cluster was asked to stop"),
        }
    }
}

fn show_round<W: fmt::Write>(
    f: &mut fmt::Formatter<W>,
    replica: ReplicaId,
    round: u32,
    blocks: u32,
    signatures: u32,
) -> fmt::Result {
    let replica = replica.number();
    write!(
        f,
        "replica {replica} opened round {round}: blocks {blocks}, signatures {signatures}"
    )
}

fn show_block<W: fmt::Write>(
    f: &mut fmt::Formatter<W>,
    height: u32,
    replica: ReplicaId,
    round: u32,
) -> fmt::Result {
    let replica = replica.number();
    write!(
        f,
        "block {height}: replica {replica} ran it first, in round {round}"
    )
}

fn show_mute<W: fmt::Write>(
    f: &mut fmt::Formatter<W>,
    replica: ReplicaId,
    round: u32,
    signatures: u32,
) -> fmt::Result {
    let replica = replica.number();
    write!(
        f,
        "replica {replica} is mute from round {round} on: its keys have {signatures} signatures left, too few"
    )
}

fn show_loss<W: fmt::Write>(f: &mut fmt::Formatter<W>, replica: ReplicaId) -> fmt::Result {
    let replica = replica.number();
    write!(
        f,
        "replica {replica}: memory ran out, so events or frames were lost"
    )
}

fn show_nearly_full<W: fmt::Write>(
    f: &mut fmt::Formatter<W>,
    replica: ReplicaId,
    entries: usize,
) -> fmt::Result {
    let replica = replica.number();
    write!(
        f,
        "replica {replica}: nine tenths of its history are full, {entries} of 65536 entries"
    )
}

//! Chooses the replica that a request asks if it names none, by the heights that the replicas have committed.
ghost use Rattle.std.specs.Prelude.{◌≡◌, ◌<◌, ◌≤◌};
ghost use Rattle.http_sessions.specs.Exchanges.{Makes};
ghost use Rattle.http_sessions.specs.Choosing.{FindsChosen};

use crate::targets::HttpTargets;
use ledger_model::{Height, ReplicaId};

/// Which replicas a request is for.
#[derive(Clone, Copy)]
pub(crate) enum Choice {
    /// Those that have committed most: what is read is as new as possible.
    MostCommitted,
    /// Those that have committed least: a pool there has each transaction that any pool still has from former requests, and refuses its copy.
    LeastCommitted,
}

impl Choice {
    ghost use Rattle.http_sessions.specs.Choosing.{prefers};

    /// Whether a replica with this height is chosen before one with the other.
    fn prefers(self, height: Height, other: Height) -> bool
        ensures { result ≡ prefers self height other }
    {
        match self {
            Choice::MostCommitted => other.number() < height.number(),
            Choice::LeastCommitted => height.number() < other.number(),
        }
    }
}

/// The first of those of the first `count` replicas that a request is for. Each of the `count` is asked for its height once.
pub(crate) fn chosen<T: HttpTargets>(targets: &mut T, count: usize, choice: Choice) -> ReplicaId
    requires some { 0 < count }
    requires few { count ≤ 256 }
    requires known { count ≤ T.replicas targets.old }
    ensures found { FindsChosen (Makes T.asks T.inquires) choice targets.old targets.new count result }
    ensures known { result < count }
    ensures count { T.replicas targets.new ≡ T.replicas targets.old }
{
    let mut found = ReplicaId::new(0);
    let mut best = targets.height(found);
    for number in 1..count {
        let replica = ReplicaId::new(number as u8);
        let height = targets.height(replica);
        if choice.prefers(height, best) {
            found = replica;
            best = height;
        }
    }
    found
}

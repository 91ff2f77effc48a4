//! Which replicas a frame goes to.
ghost use Rattle.std.specs.Prelude.{◌≡◌};
ghost use Rattle.ledger_model.specs.Addressing.{goes_to};

use crate::{Addressee, ReplicaId};

/// Whether a frame that the replica `from` sent goes to `to`: to all other replicas, or to the one that it is addressed to. It never goes
/// back to its sender.
pub fn goes_to(addressee: Addressee, from: ReplicaId, to: ReplicaId) -> bool
    ensures { result ≡ goes_to addressee from to }
{
    match addressee {
        Addressee::All => to != from,
        Addressee::One(replica) => to != from && to == replica,
    }
}

//! The audit of histories.
ghost use Rattle.std.specs.Prelude.{◌≡◌, ◌≤◌, ◌↔◌, ◌⊎◌, [], true, false, length, List, Result, IfOk, IsErrOf};
ghost use Rattle.std.specs.List.{All};
ghost use Rattle.ledger_model.specs.Applications.{run};
ghost use Rattle.ledger_model.specs.Audits.{are_of_a_quorum};
ghost use Rattle.ledger_model.specs.Values.{Value};
ghost use Rattle.ledger_model.specs.Worlds.{IsLedger};
ghost use Rattle.history_audit.specs.Findings.{IsFinding};

use crate::counting::are_of_a_quorum;
use crate::fault::AuditFault;
use crate::following::follow_all;
use crate::sending::sent_in;
use crate::unsent::look_for_unsent;
use abci::Application;
use history_follower::shared_verifier;
use key_ring::KeyRing;
use ledger_model::{Config, History, Ledger};
use std::alloc::Global;
use std::hash::RandomState;

/// What an audit of a quorum's histories finds.
fn audit_quorum<A: Application>(
    alloc: Global,
    config: &Config,
    ring: &KeyRing,
    histories: &[History],
    apps: Vec<A>,
    random: RandomState,
) -> Result<Ledger, AuditFault>
    requires count { are_of_a_quorum config.now histories.now ≡ true }
    requires enough { length histories.now ≤ length apps.items }
    requires opening { All (λ app. A.machine app ≡ run A.meaning config.now.kind []) apps.items }
    ensures { IsErrOf result AuditFault.NoMemory ⊎ IsFinding A.meaning config.now ring.now histories.now result }
{
    let mut verifier = shared_verifier(alloc, ring, histories, random)?;
    let ledger = follow_all(alloc, config, &mut verifier, histories, apps, random)?;
    let sent = sent_in(alloc, histories, random)?;
    look_for_unsent(alloc, config, histories, &sent)?;
    Ok(ledger)
}

/// Audits histories of different replicas of one cluster, each taken at any moment: whether they are those of one ledger. A
/// replica whose history isn't handed in counts as a liar.
///
/// Returns the ledger: the longest list of batches that one of these replicas committed. The others' lists are prefixes of it,
/// each reply agrees with it, and if all of them that opened a height proposed the same batch, it has that batch there. This
/// holds even if signatures can be forged, and needs no order of events across replicas.
///
/// Otherwise the first of these faults: `Count`; then `NotReplay`, of the least replica and its first such entry; then
/// `Unsent`, of the least reader, its first such entry and the least signer there. `NoMemory` can come once the count is
/// right. `Unsent` doesn't prove a lie if the signer's history was taken before the reader's.
///
/// The ring has the replicas' public keys by number. There is an application for each history, unless there are more histories
/// than replicas; each is in its opening state and of the configured kind. The random keys are those of hashes. The audit remembers as many answers as the histories have
/// entries, at most 131,072, so it seldom verifies a signature twice.
pub fn audit<A: Application>(
    alloc: Global,
    config: &Config,
    ring: &KeyRing,
    histories: &[History],
    apps: Vec<A>,
    random: RandomState,
) -> Result<Ledger, AuditFault>
    requires enough { length histories.now ≤ config.now.replicas → length histories.now ≤ length apps.items }
    requires opening { All (λ app. A.machine app ≡ run A.meaning config.now.kind []) apps.items }
    // The histories are those of one ledger, which is returned.
    ensures ledger { IfOk result (λ ledger. IsLedger A.meaning config.now histories.now ledger) }
    // A wrong count is found even if memory is refused.
    ensures count { IsErrOf result AuditFault.Count ↔ (are_of_a_quorum config.now histories.now ≡ false) }
    // Memory aside, the result is what an audit of the histories finds.
    ensures finding { IsErrOf result AuditFault.NoMemory ⊎ IsFinding A.meaning config.now ring.now histories.now result }
    // Memory aside, whatever an audit of the histories finds is the result.
    ensures only { (finding : Result (List Value) AuditFault) → IsFinding A.meaning config.now ring.now histories.now finding
        → IsErrOf result AuditFault.NoMemory ⊎ (result ≡ finding) }
{
    if !are_of_a_quorum(config, histories) {
        return Err(AuditFault::Count);
    }
    audit_quorum(alloc, config, ring, histories, apps, random)
}

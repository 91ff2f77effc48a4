//! An audit with applications of the cluster's kind, and with random keys of its own.
ghost use Rattle.std.specs.Prelude.{IfOk, IfErr};
ghost use Rattle.byte_streams.specs.Faults.{IsMemoryOrRandom};
ghost use Rattle.history_audit.specs.Findings.{IsFinding};

use crate::auditing::audit;
use crate::fault::AuditFault;
use app_states::{Opening, new_apps};
use byte_streams::{ProgramFault, new_random_key};
use key_ring::KeyRing;
use ledger_model::{Config, History, Ledger};
use std::alloc::Global;
use std::random::RandomSource;

/// What an audit of these histories finds: their ledger, or the first fault other than `NoMemory`. The ring has the public
/// keys of the cluster's replicas by number. The random bytes are the keys of hashes.
///
/// The only errors are that memory runs out, or that random bytes are refused.
pub fn audited<A: Opening, S: RandomSource>(
    source: &S,
    alloc: Global,
    config: &Config,
    ring: &KeyRing,
    histories: &[History],
) -> Result<Result<Ledger, AuditFault>, ProgramFault>
    ensures finds { IfOk result (λ finding. IsFinding A.meaning config.now ring.now histories.now finding) }
    ensures fault { IfErr result IsMemoryOrRandom }
{
    let random = new_random_key(source)?;
    let count = histories.len().min(usize::from(config.replicas));
    let apps = new_apps::<A>(alloc, config.kind, count)?;
    match audit(alloc, config, ring, histories, apps, random) {
        Err(AuditFault::NoMemory) => Err(ProgramFault::NoMemory),
        finding => Ok(finding),
    }
}

//! Whether the acknowledgements of a lock decide its value.
ghost use Rattle.std.specs.Prelude.{◌≡◌};
ghost use Rattle.tally.specs.Tallies.{all_read};
ghost use Rattle.phase_core.specs.Choices.{is_decided_by};

use ledger_model::{Ack, Batch, Config, Lock, Phase};
use tally::Tally;

/// Whether at least 2t+1 replicas acknowledged a lock of this phase on this value. Allocates nothing.
pub fn is_acknowledged(config: &Config, acks: &Tally<Ack>, phase: Phase, value: &Batch) -> bool
    ensures { result ≡ is_decided_by config.now (all_read acks.now) phase value.now }
{
    let count = acks.count_where(|ack| ack.phase == phase && *value == ack.value);
    count >= usize::from(config.deciding())
}

/// Whether the owner of a lock decides its value: whether at least 2t+1 replicas acknowledged a lock of that phase and
/// value. Allocates nothing.
pub fn decides(config: &Config, acks: &Tally<Ack>, lock: &Lock) -> bool
    ensures { result ≡ is_decided_by config.now (all_read acks.now) lock.now.phase lock.now.value }
{
    is_acknowledged(config, acks, lock.phase, &lock.value)
}

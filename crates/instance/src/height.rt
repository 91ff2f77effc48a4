//! The state of the agreement at one height, and how it starts.
ghost use Rattle.std.specs.Prelude.{◌≡◌, None, IfOk, replicate};

use ledger_model::{Ack, Batch, Config, Height, ReplicaId};
use lock_proofs::LockTable;
use proper_sets::Proper;
use std::alloc::{AllocError, Global};
use std::marker::Model;
use tally::{PhaseReports, Tally};

/// The agreement at one height, as one replica sees it. Contracts see an `InstanceView`.
pub struct Instance {
    pub(crate) config: Config,
    pub(crate) id: ReplicaId,
    pub(crate) height: Height,
    pub(crate) proper: Proper,
    pub(crate) locks: LockTable,
    pub(crate) reports: PhaseReports,
    pub(crate) acks: Tally<Ack>,
    /// The value of the lock that was taken in the open phase.
    pub(crate) taken: Option<Batch>,
    /// The value of the lock that was made in the open phase.
    pub(crate) made: Option<Batch>,
    pub(crate) decided: Option<Batch>,
}

// An own `Drop` keeps proofs short: an owner drops it by one call. See docs/WORKING.md.
impl Drop for Instance {
    fn drop(self) {
        let Instance {
            config: _config,
            id: _id,
            height: _height,
            proper: _proper,
            locks: _locks,
            reports: _reports,
            acks: _acks,
            taken: _taken,
            made: _made,
            decided: _decided,
        } = self;
    }
}

impl Model for Instance {
    ghost use Rattle.std.specs.Prelude.{◌≡◌, ◌<◌, length};
    ghost use Rattle.instance.specs.Instances.{InstanceView};
    ghost use Rattle.instance.specs.Matching.{IsSpelled};

    ghost Value = { InstanceView };

    ghost view = { λ i. record {
      config = i.config;
      id = i.id;
      height = i.height;
      proper = i.proper.set;
      table = i.locks;
      reports = i.reports;
      acks = i.acks;
      taken = i.taken;
      made = i.made;
      decided = i.decided;
    } };

    ghost invariant = { λ i. (i.proper.config ≡ i.config) × (i.id < i.config.replicas)
        × (length i.reports ≡ i.config.replicas) × (length i.acks ≡ i.config.replicas)
        × IsSpelled (record {
          config = i.config;
          id = i.id;
          height = i.height;
          proper = i.proper.set;
          table = i.locks;
          reports = i.reports;
          acks = i.acks;
          taken = i.taken;
          made = i.made;
          decided = i.decided;
        }) };
}

impl Instance {
    ghost use Rattle.std.specs.Prelude.{◌≡◌, ◌<◌, ◌≤◌, ◌++◌, ◌∷◌, ℕ, List, [], IfOk, true, false, if◌then◌else◌};
    ghost use Rattle.std.specs.Int.{bit_at};
    ghost use Rattle.std.specs.Option.{option_copied, option_map_or};
    ghost use Rattle.tally.specs.Masks.{mask_of};
    ghost use Rattle.tally.specs.Tallies.{read_of};
    ghost use Rattle.ledger_model.specs.Notes.{Note, Proposed};
    ghost use Rattle.ledger_model.specs.Locks.{decided_of, finds};
    ghost use Rattle.ledger_model.specs.Values.{IsValueIn};
    ghost use Rattle.ledger_model.specs.Rules.{Ring};
    ghost use Rattle.ledger_model.specs.Limits.{max_height};
    ghost use Rattle.instance.specs.Matching.{MatchesLog, only_rounds};
    ghost use Rattle.instance.specs.Reads.{opened_row};

    /// A height that replica `id` opens with its own initial value, in any round. The value is one that a statement of the
    /// cluster's version can contain.
    pub fn open(
        alloc: Global,
        config: &Config,
        id: ReplicaId,
        height: Height,
        initial: &Batch,
    ) -> Result<Self, AllocError>
        requires member { id < config.now.replicas }
        requires height { (1 ≤ height) × (height ≤ max_height) }
        requires initial { IsValueIn config.now.frames initial.now }
        ensures row { IfOk result (λ row. row ≡ opened_row config.now id height initial.now) }
        // It matches every log of opened rounds that ends with this proposal.
        ensures matches { IfOk result (λ row. (ring : Ring) (log : List Note) → only_rounds log ≡ true
            → MatchesLog ring row (log ++ Proposed initial.now ∷ [])) }
    {
        let locks = LockTable::new(alloc)?;
        let (reports, acks) = empty_places(alloc, config)?;
        let proper = Proper::new(alloc, config, initial)?;
        Ok(Instance {
            config: *config,
            id,
            height,
            proper,
            locks,
            reports,
            acks,
            taken: None,
            made: None,
            decided: None,
        })
    }

    /// The height.
    pub fn height(&self) -> Height
        ensures { result ≡ self.now.height }
    {
        self.height
    }

    /// The replicas whose reports, read in the open phase, find the value, as a mask: bit r is one exactly where that of replica
    /// r does. Allocates nothing.
    pub fn finds(&self, value: &Batch) -> u16
        ensures mask { result ≡ mask_of (λ s. finds s.report value.now) self.now.reports }
        ensures bits { (r : ℕ) → bit_at result r
            ≡ (if option_map_or (λ s. finds s.report value.now) (read_of self.now.reports r) false then 1 else 0) }
    {
        self.reports.finds(value)
    }

    /// The value that was decided, if one was. A decision never changes.
    pub fn decided(&self) -> Option<&Batch>
        ensures row { option_copied result ≡ self.now.decided }
        ensures decided { (ring : Ring) (log : List Note) → MatchesLog ring self.now log
            → option_copied result ≡ decided_of self.now.config log }
    {
        self.decided.as_ref()
    }
}

/// Places for the reports and the acknowledgements of a phase, before the first is read.
fn empty_places(alloc: Global, config: &Config) -> Result<(PhaseReports, Tally<Ack>), AllocError>
    ensures reports { IfOk result (λ places. places.0 ≡ replicate config.now.replicas None) }
    ensures acks { IfOk result (λ places. places.1 ≡ replicate config.now.replicas None) }
{
    Ok((
        PhaseReports::new(alloc, config)?,
        Tally::new(alloc, config)?,
    ))
}

//! The proper values of a replica: its own initial value, others by name, or all.
use crate::ascending::Ascending;
use crate::reported::Absorption;
use ledger_model::{Batch, Config, ReplicaId};
use std::alloc::{AllocError, Global};
use std::marker::Model;
use tally::PhaseReports;

/// The proper values of a replica at one height: its own initial value, and those that the reports which it read make proper.
///
/// Contracts see the cluster's size and a `ProperSet`.
pub struct Proper {
    config: Config,
    own: Batch,
    all: bool,
    explicit: Ascending,
}

// An own `Drop` keeps proofs short: an owner drops it by one call. See docs/WORKING.md.
impl Drop for Proper {
    fn drop(self) {
        let Proper {
            config: _config,
            own: _own,
            all: _all,
            explicit: _explicit,
        } = self;
    }
}

impl Model for Proper {
    ghost use Rattle.proper_sets.specs.ProperViews.{ProperView, IsSmall};

    ghost Value = { ProperView };

    ghost view = { λ p. record { config = p.config; set = record { own = p.own; all = p.all; explicit = p.explicit } } };

    ghost invariant = { λ p. IsSmall p.own p.explicit };
}

impl Proper {
    ghost use Rattle.std.specs.Prelude.{◌≡◌, ◌≤◌, length, IfOk, OnOk, OnErr, IsTrue};
    ghost use Rattle.std.specs.List.{list_any};
    ghost use Rattle.ledger_model.specs.Values.{same_value, IsValue};
    ghost use Rattle.ledger_model.specs.Spelling.{are_ascending};
    ghost use Rattle.tally.specs.Tallies.{all_read};
    ghost use Rattle.proper_sets.specs.Propriety.{only_own, is_proper, absorbed};
    ghost use Rattle.tally.specs.Readings.{reports_of};

    /// The most values that are proper by name.
    pub const MAX_EXPLICIT: usize = 4;

    /// The set before the first phase: only the replica's own initial value. The only error is allocation failure.
    pub fn new(alloc: Global, config: &Config, initial: &Batch) -> Result<Self, AllocError>
        ensures config { IfOk result (λ proper. proper.config ≡ config.now) }
        ensures set { IfOk result (λ proper. proper.set ≡ only_own initial.now) }
    {
        let mut explicit = Ascending::new(alloc);
        explicit.put(initial)?;
        Ok(Proper {
            config: *config,
            own: initial.copy()?,
            all: false,
            explicit,
        })
    }

    /// Absorbs the reports that were read in one phase. `own` is the number of this replica, whose own report doesn't
    /// count among the others'.
    ///
    /// If memory runs out, nothing changes.
    pub fn absorb(&mut self, own: ReplicaId, reports: &PhaseReports) -> Result<(), AllocError>
        ensures ok { OnOk result (self.new.set ≡ absorbed self.old.config own (reports_of (all_read reports.now)) self.old.set) }
        ensures config { self.new.config ≡ self.old.config }
        ensures err { OnErr result (self.new.set ≡ self.old.set) }
    {
        let phase = Absorption {
            config: &self.config,
            own,
            initial: &self.own,
            reports,
        };
        let mut explicit = self.explicit.copy()?;
        phase.put_named(&mut explicit)?;
        explicit.keep_least_others(&self.own, Self::MAX_EXPLICIT - 1);
        explicit.put(&self.own)?;
        let all = self.all || phase.make_all_proper();
        self.all = all;
        self.explicit = explicit;
        Ok(())
    }

    /// Whether the value is proper. Allocates nothing.
    pub fn has(&self, value: &Batch) -> bool
        ensures { result ≡ is_proper self.now.set value.now }
    {
        self.all || self.explicit.has(value)
    }

    /// A copy of the set. The only error is allocation failure.
    pub fn copy(&self) -> Result<Self, AllocError>
        ensures { IfOk result (λ proper. proper ≡ self.now) }
    {
        Ok(Proper {
            config: self.config,
            own: self.own.copy()?,
            all: self.all,
            explicit: self.explicit.copy()?,
        })
    }

    /// The replica's own initial value.
    pub fn own(&self) -> &Batch
        ensures { result.now ≡ self.now.set.own }
    {
        &self.own
    }

    /// Whether every value is proper.
    pub fn all(&self) -> bool
        ensures { result ≡ self.now.set.all }
    {
        self.all
    }

    /// The values that are proper by name, ascending: the replica's own, and at most three others.
    pub fn explicit(&self) -> &[Batch]
        ensures values { result.now ≡ self.now.set.explicit }
        ensures few { length self.now.set.explicit ≤ 4 }
        ensures own { IsTrue (list_any (same_value self.now.set.own) self.now.set.explicit) }
        ensures ascend { IsTrue (are_ascending self.now.set.explicit) }
    {
        self.explicit.as_slice()
    }
}

//! The replica opens a height.
use crate::replay::Replay;
use abci::Application;
use ledger_model::{Batch, Height, ProposeRefusal};
use std::alloc::{AllocError, Global};

impl<A: Application> Replay<A> {
    ghost use Rattle.std.specs.Prelude.{◌≡◌, ◌≤◌, ◌∷◌, ◌++◌, ℕ, List, [], Some, true, IfOk, is_some, OnOk, OnErr};
    ghost use Rattle.ledger_model.specs.Notes.{Note, Proposed};
    ghost use Rattle.ledger_model.specs.Rules.{Ring};
    ghost use Rattle.instance.specs.Instances.{InstanceView};
    ghost use Rattle.instance.specs.Matching.{MatchesLog, only_rounds};
    ghost use Rattle.height_row.specs.Heights.{row_at, AreApart};
    ghost use Rattle.replica_core.specs.Steps.{propose_held};

    /// Opens a height with the first transactions of the pool, at most 16 or 64, which stay in the pool.
    pub(crate) fn propose(
        &mut self,
        alloc: Global,
        height: Height,
    ) -> Result<Result<Batch, ProposeRefusal>, AllocError>
        ensures answer { IfOk result (λ r. r ≡ propose_held self.old height) }
        ensures rest { self.new ≡ record self.old { rows = self.new.rows } }
        // The height is open then, and matches every log of opened rounds that ends with this proposal.
        ensures opened { IfOk result (λ r. IfOk r (λ batch. (row : InstanceView) → row_at self.new.rows height ≡ Some row
            → (ring : Ring) (log : List Note) → only_rounds log ≡ true → MatchesLog ring row (log ++ Proposed batch ∷ []))) }
        ensures there { IfOk result (λ r. OnOk r (is_some (row_at self.new.rows height) ≡ true)) }
        ensures apart { AreApart height self.old.rows self.new.rows }
        ensures refused { IfOk result (λ r. OnErr r (self.new ≡ self.old)) }
        ensures err { OnErr result (self.new ≡ self.old) }
    {
        let committed = self.height();
        if let Err(refusal) = self.rows.may_open(height, committed) {
            return Ok(Err(refusal));
        }
        let initial = self.pool.reap(self.config.frames)?;
        match self.rows.open(alloc, height, &initial, committed)? {
            Ok(()) => Ok(Ok(initial)),
            Err(refusal) => Ok(Err(refusal)),
        }
    }
}

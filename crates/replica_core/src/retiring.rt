//! The replica gives up heights that it has committed.
use crate::replay::Replay;
use abci::Application;
use ledger_model::{Height, RetireRefusal};

impl<A: Application> Replay<A> {
    ghost use Rattle.std.specs.Prelude.{◌≡◌};
    ghost use Rattle.replica_core.specs.Steps.{retire_held, after_retire};

    /// Gives up the heights below the new floor, which must be above the old one, and at most one above the committed height. A
    /// refusal changes nothing. Allocates nothing.
    pub(crate) fn retire(&mut self, floor: Height) -> Result<Height, RetireRefusal>
        ensures answer { result ≡ retire_held self.old floor }
        ensures after { self.new ≡ after_retire self.old result }
    {
        if self.height() + 1 < floor.number() {
            return Err(RetireRefusal::NotCommitted);
        }
        if floor <= self.rows.floor() {
            return Err(RetireRefusal::NotAbove);
        }
        self.rows.retire(floor);
        Ok(floor)
    }
}

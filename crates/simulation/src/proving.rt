//! The proofs of liars' locks: the serving reports, among those that were sent so far.
ghost use Rattle.std.specs.Prelude.{◌≡◌, IfOk, IfSome};
ghost use Rattle.ledger_model.specs.Spelling.{IsSignedReport};

use crate::report_index;
use crate::simulation::Simulation;
use abci::Application;
use ledger_model::{Phase, SignedReport};
use scenario_texts::Lie;
use std::alloc::AllocError;

impl<A: Application> Simulation<A> {
    ghost use Rattle.std.specs.Prelude.{◌<◌, ◌≤◌, length, IfNone, IsTrue};
    ghost use Rattle.std.specs.List.{AllByRecursion};
    ghost use Rattle.ledger_model.specs.Rounds.{quorum};
    ghost use Rattle.ledger_model.specs.Validity.{ascends_within, signers_of};
    ghost use Rattle.simulation.specs.Playing.{all_serving, proof_for};

    /// The serving reports of the source phase, at most one for each replica, in ascending order. What contracts see of the
    /// simulation stays as it is.
    fn all_serving(&mut self, lie: &Lie, source: Phase) -> Result<Vec<SignedReport>, AllocError>
        ensures same { self.new ≡ self.old }
        ensures found { IfOk result (λ found. found.items ≡ all_serving self.old lie.now source) }
        ensures spelled { IfOk result (λ found. AllByRecursion (IsSignedReport lie.now.version) found.items) }
    {
        let alloc = self.allocator();
        report_index::all_serving(alloc, &mut self.index, &self.world, &self.lies, lie, source)
    }

    /// A quorum of the serving reports of the source phase, if there are enough. What contracts see of the simulation stays
    /// as it is.
    pub(crate) fn proof(
        &mut self,
        lie: &Lie,
        source: Phase,
    ) -> Result<Option<Vec<SignedReport>>, AllocError>
        ensures same { self.new ≡ self.old }
        ensures proof { IfOk result (λ proof. IfSome proof (λ reports. reports.items ≡ proof_for self.old lie.now source)) }
        ensures count { IfOk result (λ proof. IfSome proof (λ reports. length reports.items ≡ quorum self.old.cluster.config)) }
        ensures spelled { IfOk result (λ proof. IfSome proof (λ reports. AllByRecursion (IsSignedReport lie.now.version) reports.items)) }
        ensures ascend { IfOk result (λ proof. IfSome proof (λ reports. IsTrue (ascends_within 0 256 (signers_of reports.items)))) }
        ensures none { IfOk result (λ proof. IfNone proof (length (proof_for self.old lie.now source) < quorum self.old.cluster.config)) }
    {
        let mut reports = self.all_serving(lie, source)?;
        let config = self.world.config();
        let count = usize::from(config.quorum());
        if reports.len() < count {
            return Ok(None);
        }
        reports.truncate(count);
        Ok(Some(reports))
    }
}

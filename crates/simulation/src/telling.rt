//! Lies: what liars sign, and which replicas it is injected to.
ghost use Rattle.std.specs.Prelude.{◌≡◌, ◌++◌, IfOk, OnOk};
ghost use Rattle.ledger_model.specs.Spelling.{IsStatement};
ghost use Rattle.simulation.specs.Lies.{lying_report, lying_ack};
ghost use Rattle.simulation.specs.Playing.{replica_named};

use crate::said::{ack_of, lock_of, report_of};
use crate::signing::{Signing, signing_of};
use crate::simulation::Simulation;
use abci::Application;
use ledger_model::{Phase, ReplicaId, Statement, WorldStep};
use printed_lines::Text;
use scenario_texts::{Lie, Towards};
use signed_frames::{Frame, UnsignedFrame};
use std::alloc::AllocError;

/// The replica with this number. A number above 255 becomes 255, which no cluster has.
pub(crate) fn named(number: u32) -> ReplicaId
    ensures { result ≡ replica_named number }
{
    ReplicaId::new(u8::try_from(number).unwrap_or(u8::MAX))
}

impl<A: Application> Simulation<A> {
    ghost use Rattle.std.specs.Prelude.{ℕ, List, [], ◌∷◌};
    ghost use Rattle.ledger_model.specs.Spelling.{frame_bytes};
    ghost use Rattle.ledger_model.specs.declared.statement.Statement.TheVariants as statement;
    ghost use Rattle.printed_lines.specs.Lines.{step_text};
    ghost use Rattle.simulation.specs.Playing.{IsSigning, StepsEach, Lies, LiesLock, IsReachedByRun, injections_to, lie_receivers, proof_for};

    /// Asks a liar to sign a statement with its next leaf.
    fn sign(&mut self, liar: ReplicaId, statement: Statement) -> Result<Signing, AllocError>
        requires { IsStatement statement }
        ensures done { IfOk result (λ signing. IsSigning self.old.cluster liar statement signing self.new.cluster) }
        ensures lies { self.new.lies ≡ self.old.lies }
        ensures goes_on { IsReachedByRun A.meaning self.old.cluster self.new.cluster }
    {
        let unsigned = UnsignedFrame::new(self.allocator(), statement)?;
        let answer = self.world.sign_as(liar, unsigned.statement_bytes());
        signing_of(unsigned, answer)
    }

    /// Injects a frame at each of these replicas.
    fn inject_each(
        &mut self,
        receivers: &[ReplicaId],
        frame: &Frame,
        out: &mut Text,
    ) -> Result<(), AllocError>
        ensures done { OnOk result ((text : List ℕ)
            × (StepsEach A.meaning step_text self.old.cluster (injections_to receivers.now (frame_bytes frame.now)) text self.new.cluster
            × (out.new ≡ out.old ++ text))) }
        ensures lies { self.new.lies ≡ self.old.lies }
        ensures goes_on { IsReachedByRun A.meaning self.old.cluster self.new.cluster }
    {
        for receiver in receivers {
            let step = WorldStep::Inject {
                to: *receiver,
                bytes: frame.share()?,
            };
            self.step(&step, out)?;
        }
        Ok(())
    }

    /// The replicas that a lie goes to.
    fn receivers(&self, to: Towards) -> Result<Vec<ReplicaId>, AllocError>
        ensures { IfOk result (λ receivers. receivers.items ≡ lie_receivers self.now.cluster to) }
    {
        match to {
            Towards::One(number) => Ok(vec![in self.allocator(); named(number)]?),
            Towards::All => self.correct(),
        }
    }

    /// Injects a frame at the replicas that a lie goes to.
    fn inject(&mut self, to: Towards, frame: &Frame, out: &mut Text) -> Result<(), AllocError>
        ensures done { OnOk result ((text : List ℕ)
            × (StepsEach A.meaning step_text self.old.cluster
            (injections_to (lie_receivers self.old.cluster to) (frame_bytes frame.now)) text self.new.cluster
            × (out.new ≡ out.old ++ text))) }
        ensures lies { self.new.lies ≡ self.old.lies }
        ensures goes_on { IsReachedByRun A.meaning self.old.cluster self.new.cluster }
    {
        let receivers = self.receivers(to)?;
        self.inject_each(&receivers, frame, out)
    }

    /// Injects the frame of a lie, and stores it among what liars have signed.
    fn inject_and_keep(
        &mut self,
        to: Towards,
        frame: Frame,
        out: &mut Text,
    ) -> Result<(), AllocError>
        ensures done { OnOk result ((text : List ℕ)
            × (StepsEach A.meaning step_text self.old.cluster
            (injections_to (lie_receivers self.old.cluster to) (frame_bytes frame)) text self.new.cluster
            × (out.new ≡ out.old ++ text) × (self.new.lies ≡ self.old.lies ++ frame_bytes frame ∷ []))) }
        ensures goes_on { IsReachedByRun A.meaning self.old.cluster self.new.cluster }
    {
        self.inject(to, &frame, out)?;
        self.lies.push(frame.into_bytes())?;
        Ok(())
    }

    /// Lets a liar sign the statement of a lie, and injects its frame.
    fn tell(&mut self, lie: &Lie, statement: Statement, out: &mut Text) -> Result<(), AllocError>
        requires { IsStatement statement }
        ensures done { OnOk result ((text : List ℕ) × (Lies A.meaning lie.now statement self.old text self.new
            × (out.new ≡ out.old ++ text))) }
        ensures goes_on { IsReachedByRun A.meaning self.old.cluster self.new.cluster }
    {
        match self.sign(lie.liar, statement)? {
            Signing::Signed(frame) => self.inject_and_keep(lie.to, frame, out),
            Signing::Exhausted => out.add("exhausted\n"),
            Signing::NoLiar => Ok(()),
        }
    }

    /// Lets a liar sign a report.
    #[tactic(auto, using(crate::proofs::StepLemmas::stays))]
    pub(crate) fn tell_report(&mut self, lie: &Lie, out: &mut Text) -> Result<(), AllocError>
        ensures done { OnOk result ((text : List ℕ) × (Lies A.meaning lie.now
            (statement.Report (lying_report lie.now)) self.old text self.new × (out.new ≡ out.old ++ text))) }
        ensures goes_on { IsReachedByRun A.meaning self.old.cluster self.new.cluster }
    {
        let report = report_of(self.allocator(), lie)?;
        self.tell(lie, Statement::Report(report), out)
    }

    /// Lets a liar sign an acknowledgement.
    #[tactic(auto, using(crate::proofs::StepLemmas::stays))]
    pub(crate) fn tell_ack(&mut self, lie: &Lie, out: &mut Text) -> Result<(), AllocError>
        ensures done { OnOk result ((text : List ℕ) × (Lies A.meaning lie.now (statement.Ack (lying_ack lie.now)) self.old text self.new
            × (out.new ≡ out.old ++ text))) }
        ensures goes_on { IsReachedByRun A.meaning self.old.cluster self.new.cluster }
    {
        let ack = ack_of(lie)?;
        self.tell(lie, Statement::Ack(ack), out)
    }

    /// Lets a liar sign a lock, if the reports of the source phase so far make a proof for it. Otherwise the line is that it
    /// cannot.
    #[tactic(auto, using(crate::proofs::StepLemmas::stays))]
    pub(crate) fn tell_lock(
        &mut self,
        lie: &Lie,
        source: Phase,
        cannot: &str,
        out: &mut Text,
    ) -> Result<(), AllocError>
        ensures done { OnOk result ((text : List ℕ)
            × (LiesLock A.meaning lie.now (proof_for self.old lie.now source) cannot.now self.old text self.new
            × (out.new ≡ out.old ++ text))) }
        ensures goes_on { IsReachedByRun A.meaning self.old.cluster self.new.cluster }
    {
        let Some(proof) = self.proof(lie, source)? else {
            return out.add(cannot);
        };
        let lock = lock_of(lie, proof)?;
        self.tell(lie, Statement::Lock(lock), out)
    }
}

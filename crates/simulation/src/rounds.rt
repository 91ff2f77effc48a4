//! Plays a round: each correct replica ends its own, and then the frames that were sent are passed on.
ghost use Rattle.std.specs.Prelude.{◌≡◌, ◌<◌, ◌≤◌, ◌+◌, ◌*◌, ◌^◌, ◌++◌, [], ◌∷◌, map, slice_get, OnOk, IfOk};
ghost use Rattle.ledger_model.specs.declared.world.WorldStep.TheVariants.{Pass};
ghost use Rattle.ledger_model.specs.Worlds.{sent_with};
ghost use Rattle.simulation.specs.Playing.{is_for, receivers, passes_from};
ghost use Rattle.ledger_model.specs.Limits.{max_history_len};

use crate::simulation::Simulation;
use abci::Application;
use ledger_model::{Addressee, ReplicaId, WorldReply, WorldStep};
use locked_replica::{ReplyView, RoundEndView, State};
use printed_lines::Text;
use std::alloc::AllocError;

/// Whether a frame of `from` with this addressee goes to `replica`.
fn is_for(from: ReplicaId, addressee: Addressee, replica: ReplicaId) -> bool
    ensures { result ≡ is_for from addressee replica }
{
    match addressee {
        Addressee::All => replica != from,
        Addressee::One(receiver) => replica == receiver,
    }
}

/// Appends the pass of a frame to a replica, if the frame goes there.
fn add_pass(
    passes: &mut Vec<WorldStep>,
    from: ReplicaId,
    index: usize,
    addressee: &Addressee,
    to: ReplicaId,
) -> Result<(), AllocError>
    ensures { OnOk result (passes.new.items ≡ passes.old.items ++ map (Pass from index) (receivers (to ∷ []) from addressee.now)) }
{
    if !is_for(from, *addressee, to) {
        return Ok(());
    }
    passes.push(WorldStep::Pass { from, index, to })?;
    Ok(())
}

/// Appends the passes of one frame, which has this index among all that its sender ever sent.
fn add_passes_of_frame(
    passes: &mut Vec<WorldStep>,
    correct: &[ReplicaId],
    from: ReplicaId,
    index: usize,
    addressee: &Addressee,
) -> Result<(), AllocError>
    ensures { OnOk result (passes.new.items ≡ passes.old.items ++ map (Pass from index) (receivers correct.now from addressee.now)) }
{
    for to in correct {
        add_pass(passes, from, index, addressee, *to)?;
    }
    Ok(())
}

/// The index of a frame, as a step has it. Memory never has room for 2^64 frames.
fn index_of(before: u128, place: usize) -> Result<usize, AllocError>
    requires { before + place < 2 ^ 128 }
    ensures { IfOk result (λ index. index ≡ before + place) }
{
    usize::try_from(before + place as u128).map_err(|_| AllocError)
}

/// Appends the passes of a round end's frames; their sender had sent `before` frames earlier.
fn add_passes_of_end(
    passes: &mut Vec<WorldStep>,
    correct: &[ReplicaId],
    from: ReplicaId,
    before: u128,
    end: &RoundEndView<'_>,
) -> Result<(), AllocError>
    requires { before ≤ max_history_len * 2 ^ 64 }
    ensures { OnOk result (passes.new.items ≡ passes.old.items ++ passes_from correct.now from before end.now.frames) }
{
    for place in 0..end.len() {
        let index = index_of(before, place)?;
        if let Some(sent) = end.frame(place) {
            add_passes_of_frame(passes, correct, from, index, &sent.addressee)?;
        }
    }
    Ok(())
}

/// Appends the passes of an entry's frames; its replica had sent `before` frames earlier.
fn add_passes_of_entry<A: Application>(
    passes: &mut Vec<WorldStep>,
    correct: &[ReplicaId],
    state: &State<A>,
    before: u128,
    index: usize,
) -> Result<(), AllocError>
    requires { before ≤ max_history_len * 2 ^ 64 }
    ensures { OnOk result (passes.new.items ≡ passes.old.items ++ passes_from correct.now state.now.id before (sent_with (slice_get state.now.entries index))) }
{
    match state.entry(index) {
        Some(entry) => match entry.reply() {
            ReplyView::RoundEnded(Ok(end)) => {
                add_passes_of_end(passes, correct, state.id(), before, &end)
            }
            _ => Ok(()),
        },
        None => Ok(()),
    }
}

impl<A: Application> Simulation<A> {
    ghost use Rattle.std.specs.Prelude.{ℕ, List, IfOk};
    ghost use Rattle.ledger_model.specs.declared.world.WorldStep.{WorldStep};
    ghost use Rattle.ledger_model.specs.Worlds.{entries_in, frames_sent};
    ghost use Rattle.adversary_net.specs.WorldViews.{world_of};
    ghost use Rattle.printed_lines.specs.Lines.{step_text};
    ghost use Rattle.simulation.specs.Playing.{EndsEach, StepsEach, PlaysRound, PlaysSilent, IsReachedByRun, EndsRound, correct_in, passes_of, pass_text};
    ghost use Rattle.ledger_model.specs.Limits.{max_history_len};

    /// Appends the passes of the frames that a step sent; its replica had sent `before` frames earlier.
    fn add_passes(
        &self,
        passes: &mut Vec<WorldStep>,
        correct: &[ReplicaId],
        before: u128,
        answer: &WorldReply,
    ) -> Result<(), AllocError>
        requires { before ≤ max_history_len * 2 ^ 64 }
        ensures { OnOk result (passes.new.items ≡ passes.old.items ++ passes_of correct.now before answer.now (world_of self.now.cluster)) }
    {
        match answer {
            WorldReply::Done(replica, index) => match self.world.state(*replica) {
                Some(state) => add_passes_of_entry(passes, correct, state, before, *index),
                None => Ok(()),
            },
            WorldReply::Refused(_) => Ok(()),
        }
    }

    /// One replica ends its round. Appends its lines, and the passes of what it sent.
    fn end(
        &mut self,
        correct: &[ReplicaId],
        replica: ReplicaId,
        passes: &mut Vec<WorldStep>,
        out: &mut Text,
    ) -> Result<(), AllocError>
        ensures done { OnOk result (EndsRound A.meaning correct.now self.old.cluster replica out.old out.new passes.old.items
            passes.new.items self.new.cluster) }
        ensures lies { self.new.lies ≡ self.old.lies }
        ensures goes_on { IsReachedByRun A.meaning self.old.cluster self.new.cluster }
    {
        let before = self.world.frames_sent(replica);
        let answer = self.step(&WorldStep::RoundEnd(replica), out)?;
        self.add_passes(passes, correct, before, &answer)
    }

    /// Each of these replicas, which are the correct ones, ends its round.
    fn end_each(
        &mut self,
        correct: &[ReplicaId],
        passes: &mut Vec<WorldStep>,
        out: &mut Text,
    ) -> Result<(), AllocError>
        ensures done { OnOk result ((text : List ℕ) × ((more : List WorldStep)
            × (EndsEach A.meaning correct.now self.old.cluster correct.now text more self.new.cluster
            × (out.new ≡ out.old ++ text) × (passes.new.items ≡ passes.old.items ++ more)))) }
        ensures lies { self.new.lies ≡ self.old.lies }
        ensures goes_on { IsReachedByRun A.meaning self.old.cluster self.new.cluster }
    {
        for replica in correct {
            self.end(correct, *replica, passes, out)?;
        }
        Ok(())
    }

    /// Each correct replica ends its round. Appends their lines, and the passes of what they sent.
    fn end_all(&mut self, passes: &mut Vec<WorldStep>, out: &mut Text) -> Result<(), AllocError>
        ensures done { OnOk result ((text : List ℕ) × ((more : List WorldStep)
            × (EndsEach A.meaning (correct_in self.old.cluster) self.old.cluster (correct_in self.old.cluster) text more self.new.cluster
            × (out.new ≡ out.old ++ text) × (passes.new.items ≡ passes.old.items ++ more)))) }
        ensures lies { self.new.lies ≡ self.old.lies }
        ensures goes_on { IsReachedByRun A.meaning self.old.cluster self.new.cluster }
    {
        let correct = self.correct()?;
        self.end_each(&correct, passes, out)
    }

    /// Takes each of these passes.
    fn pass_each(&mut self, passes: &[WorldStep], out: &mut Text) -> Result<(), AllocError>
        ensures done { OnOk result ((text : List ℕ)
            × (StepsEach A.meaning pass_text self.old.cluster passes.now text self.new.cluster × (out.new ≡ out.old ++ text))) }
        ensures lies { self.new.lies ≡ self.old.lies }
        ensures goes_on { IsReachedByRun A.meaning self.old.cluster self.new.cluster }
    {
        for step in passes {
            self.pass(step, out)?;
        }
        Ok(())
    }

    /// Each correct replica ends its round, and nothing is passed on.
    pub(crate) fn play_silent(&mut self, out: &mut Text) -> Result<(), AllocError>
        ensures done { OnOk result ((text : List ℕ) × (PlaysSilent A.meaning self.old text self.new × (out.new ≡ out.old ++ text))) }
        ensures goes_on { IsReachedByRun A.meaning self.old.cluster self.new.cluster }
    {
        let mut passes = Vec::new(self.allocator());
        self.end_all(&mut passes, out)
    }

    /// Each correct replica ends its round, and then each frame that was sent is passed to its addressees.
    pub(crate) fn play_round(&mut self, out: &mut Text) -> Result<(), AllocError>
        ensures done { OnOk result ((text : List ℕ) × (PlaysRound A.meaning self.old.cluster text self.new.cluster
            × (out.new ≡ out.old ++ text))) }
        ensures lies { self.new.lies ≡ self.old.lies }
        ensures goes_on { IsReachedByRun A.meaning self.old.cluster self.new.cluster }
    {
        let mut passes = Vec::new(self.allocator());
        self.end_all(&mut passes, out)?;
        self.pass_each(&passes, out)
    }
}

//! The heights from a replica's floor on that it has opened, each an instance of agreement.
use crate::open_instances::OpenInstances;
use crate::round_closing::{RoundClosing, close_each, plan_each, prepare_each};
use crate::slots::make_room;
use instance::{Instance, RoundEffects, RoundPlan, RoundStatement};
use key_ring::KeyRing;
use ledger_model::{Batch, Config, Height, Ignored, ProposeRefusal, ReplicaId};
use signed_frames::Frame;
use std::alloc::{AllocError, Global};
use std::marker::Model;
use verify_cache::CheckSignatures;

/// The heights that a replica has opened and not retired, in ascending order, and its floor, below which all are retired.
/// Contracts see a `HeightRowView`.
#[derive(Drop)]
pub struct HeightRow {
    config: Config,
    id: ReplicaId,
    floor: Height,
    /// One for each height from the floor on, up to the highest that was opened: empty if the height isn't open.
    slots: Vec<Option<Instance>>,
}

impl Model for HeightRow {
    ghost use Rattle.std.specs.Prelude.{◌<◌};
    ghost use Rattle.tally.specs.Tallies.{all_read};
    ghost use Rattle.height_row.specs.Heights.{HeightRowView};
    ghost use Rattle.height_row.specs.Slots.{AreSlots};

    ghost Value = { HeightRowView };

    ghost view = { λ r. record { config = r.config; id = r.id; floor = r.floor; rows = all_read r.slots.items } };

    ghost invariant = { λ r. (r.id < r.config.replicas) × AreSlots r.config r.id r.floor r.slots.items };
}

impl HeightRow {
    ghost use Rattle.std.specs.Prelude.{◌≡◌, ◌<◌, ◌≤◌, ◌+◌, ◌-◌, ◌++◌, ◌∷◌, ℕ, List, [], map, Some, None, is_some, true, IsTrue};
    ghost use Rattle.std.specs.Prelude.{IfOk, IfSome, OnOk, OnErr, nat_le, if◌then◌else◌};
    ghost use Rattle.std.specs.List.{AllByRecursion};
    ghost use Rattle.std.specs.Option.{option_copied};
    ghost use Rattle.ledger_model.specs.Rounds.{place_of, release_place};
    ghost use Rattle.ledger_model.specs.Notes.{Note, Proposed, clock_of, signer_of, version_of};
    ghost use Rattle.ledger_model.specs.Values.{IsValueIn};
    ghost use Rattle.ledger_model.specs.Versions.{reads};
    ghost use Rattle.ledger_model.specs.Locks.{decided_of};
    ghost use Rattle.ledger_model.specs.Logs.{height_of};
    ghost use Rattle.ledger_model.specs.Rules.{Ring};
    ghost use Rattle.height_row.specs.ReadRows.{AnswersAtHeight, NotesAtHeight};
    ghost use Rattle.ledger_model.specs.Lawful.{held_locks, are_signed_reports};
    ghost use Rattle.ledger_model.specs.Spelling.{IsStatement, frame_bytes};
    ghost use Rattle.instance.specs.Instances.{InstanceView};
    ghost use Rattle.instance.specs.Matching.{MatchesLog, only_rounds};
    ghost use Rattle.instance.specs.Reads.{opened_row, IsSameHeight};
    ghost use Rattle.instance.specs.Plans.{chosen_statement, opened_effects, IsOwnMade};
    ghost use Rattle.instance.specs.Laws.{MayBeSent, MayClose, IsSignedMade, IsLockSentOn, opened_by};
    ghost use Rattle.height_row.specs.Heights.{row_at, rows_from, decided_in, open_answer, height_plan, closed_each};
    ghost use Rattle.height_row.specs.Heights.{AreApart, AreAscending, AreFound, AreOwn, IsSameRow};
    ghost use Rattle.ledger_model.specs.Limits.{last_round, max_height};

    /// A row with no open height, whose floor is 1.
    pub fn new(alloc: Global, config: &Config, id: ReplicaId) -> Self
        requires { id < config.now.replicas }
        ensures row { result ≡ record { config = config.now; id = id; floor = 1; rows = [] } }
        ensures own { AreOwn result }
    {
        HeightRow {
            config: *config,
            id,
            floor: Height::new(1),
            slots: Vec::new(alloc),
        }
    }

    /// The instance of the height, if the height is open: it was opened, and it isn't below the floor.
    pub fn get(&self, height: Height) -> Option<&Instance>
        ensures row { option_copied result ≡ row_at self.now.rows height }
        ensures own { AreOwn self.now }
    {
        self.slots.get(self.index_of(height)?)?.as_ref()
    }

    /// The place of an open height, counted from the floor; `None` if the height isn't open. Allocates nothing.
    pub fn place(&self, height: Height) -> Option<usize>
        ensures { result ≡ (if is_some (row_at self.now.rows height) then Some (height - self.now.floor) else None) }
    {
        self.get(height)?;
        self.index_of(height)
    }

    /// The instances of the open heights, none of them below the floor, in ascending order.
    pub fn instances(&self) -> OpenInstances<'_>
        ensures rows { result ≡ self.now.rows }
        ensures ascend { AreAscending self.now.rows }
        // Each instance is the one of its height.
        ensures found { AreFound self.now.rows }
        ensures own { AreOwn self.now }
    {
        OpenInstances::new(&self.slots)
    }

    /// The least height that isn't retired.
    pub fn floor(&self) -> Height
        ensures { result ≡ self.now.floor }
    {
        self.floor
    }

    /// The value that was decided at the height, if one was and the height isn't retired.
    pub fn decided_at(&self, height: Height) -> Option<&Batch>
        ensures row { option_copied result ≡ decided_in (row_at self.now.rows height) }
        // It is the value that was decided by every log that the height matches.
        ensures decided { (row : InstanceView) → row_at self.now.rows height ≡ Some row → (ring : Ring) (log : List Note)
            → MatchesLog ring row log → option_copied result ≡ decided_of row.config log }
        ensures own { AreOwn self.now }
    {
        self.get(height)?.decided()
    }

    /// Whether a height may be opened if `committed` blocks are committed. The refusals are tested in this order: Closed (height 0,
    /// or above the last), Retired (below the floor), AlreadyOpen, TooFar (more than [`Height::MAX_AHEAD`] above `committed`).
    /// Allocates nothing.
    pub fn may_open(&self, height: Height, committed: u32) -> Result<(), ProposeRefusal>
        requires committed { committed ≤ max_height }
        ensures { result ≡ open_answer self.now.floor self.now.rows committed height }
    {
        if height.number() == 0 || Height::MAX < height.number() {
            return Err(ProposeRefusal::Closed);
        }
        if height < self.floor {
            return Err(ProposeRefusal::Retired);
        }
        if self.get(height).is_some() {
            return Err(ProposeRefusal::AlreadyOpen);
        }
        if committed + Height::MAX_AHEAD < height.number() {
            return Err(ProposeRefusal::TooFar);
        }
        Ok(())
    }

    /// Opens a height with the replica's own initial value, unless [`HeightRow::may_open`] refuses it. `committed`
    /// blocks are committed. A refusal changes nothing, and neither does allocation failure.
    pub fn open(
        &mut self,
        alloc: Global,
        height: Height,
        initial: &Batch,
        committed: u32,
    ) -> Result<Result<(), ProposeRefusal>, AllocError>
        requires committed { committed ≤ max_height }
        requires initial { IsValueIn self.old.config.frames initial.now }
        ensures answer { IfOk result (λ r. r ≡ open_answer self.old.floor self.old.rows committed height) }
        // The height is open then, and matches every log of opened rounds that ends with this proposal.
        ensures opened { IfOk result (λ r. OnOk r (row_at self.new.rows height ≡ Some (opened_row self.old.config self.old.id height initial.now))) }
        ensures matches { IfOk result (λ r. OnOk r ((row : InstanceView) → row_at self.new.rows height ≡ Some row → (ring : Ring) (log : List Note)
            → only_rounds log ≡ true → MatchesLog ring row (log ++ Proposed initial.now ∷ []))) }
        ensures refused { IfOk result (λ r. OnErr r (self.new ≡ self.old)) }
        ensures err { OnErr result (self.new ≡ self.old) }
        ensures apart { AreApart height self.old.rows self.new.rows }
        ensures same { IsSameRow self.old self.new }
        ensures own { AreOwn self.new }
    {
        if let Err(refusal) = self.may_open(height, committed) {
            return Ok(Err(refusal));
        }
        let instance = Instance::open(alloc, &self.config, self.id, height, initial)?;
        let place = (height.number() - self.floor.number()) as usize;
        make_room(&mut self.slots, place)?;
        self.slots[place] = Some(instance);
        Ok(Ok(()))
    }

    /// Gives up the heights below the new floor. Allocates nothing.
    pub fn retire(&mut self, floor: Height)
        requires above { self.old.floor ≤ floor }
        ensures retired { self.new ≡ record self.old { floor = floor; rows = rows_from floor self.old.rows } }
        // No height below the floor is open then, and each from there on is as before.
        ensures below { (h : ℕ) → h < floor → row_at self.new.rows h ≡ None }
        ensures from { (h : ℕ) → floor ≤ h → row_at self.new.rows h ≡ row_at self.old.rows h }
        ensures own { AreOwn self.new }
    {
        let retired = (floor.number() - self.floor.number()) as usize;
        self.slots.drain(..retired.min(self.slots.len()));
        self.floor = floor;
    }

    /// The index of the slot of a height that isn't below the floor.
    fn index_of(&self, height: Height) -> Option<usize>
        ensures { result ≡ (if nat_le self.now.floor height then Some (height - self.now.floor) else None) }
    {
        let above = height.number().checked_sub(self.floor.number())?;
        Some(above as usize)
    }

    /// Reads or ignores a frame of an open height, whose signer is in the cluster, while round `clock` is open. A frame is
    /// ignored with the first cause that applies, and then nothing changes. If memory runs out, nothing changes either.
    pub fn read(
        &mut self,
        alloc: Global,
        ring: &KeyRing,
        frame: Frame,
        clock: u32,
    ) -> Result<Result<(), Ignored>, AllocError>
        requires version { IsTrue (reads self.old.config.frames (version_of frame.statement)) }
        requires signer { signer_of frame.statement < self.old.config.replicas }
        requires open { is_some (row_at self.old.rows (height_of frame.statement)) ≡ true }
        requires clock { clock ≤ last_round }
        // The answer and its effect are those of the definitions, on every log that the height matches.
        ensures answer { AnswersAtHeight ring.now self.old.rows frame clock result }
        ensures read { NotesAtHeight ring.now self.old.rows frame clock result self.new.rows }
        ensures ignored { IfOk result (λ r. OnErr r (self.new ≡ self.old)) }
        ensures err { OnErr result (self.new ≡ self.old) }
        ensures open { is_some (row_at self.new.rows (height_of frame.statement)) ≡ true }
        ensures apart { AreApart (height_of frame.statement) self.old.rows self.new.rows }
        ensures same { IsSameRow self.old self.new }
        ensures own { AreOwn self.new }
    {
        let mut checks = ring;
        self.read_with(alloc, &mut checks, frame, clock)
    }

    /// Does what [`HeightRow::read`] does, under the keys of the caller that checks signatures.
    pub fn read_with<C: CheckSignatures>(
        &mut self,
        alloc: Global,
        checks: &mut C,
        frame: Frame,
        clock: u32,
    ) -> Result<Result<(), Ignored>, AllocError>
        requires version { IsTrue (reads self.old.config.frames (version_of frame.statement)) }
        requires signer { signer_of frame.statement < self.old.config.replicas }
        requires open { is_some (row_at self.old.rows (height_of frame.statement)) ≡ true }
        requires clock { clock ≤ last_round }
        // The answer and its effect are those of the definitions, on every log that the height matches.
        ensures answer { AnswersAtHeight (C.ring checks.old) self.old.rows frame clock result }
        ensures read { NotesAtHeight (C.ring checks.old) self.old.rows frame clock result self.new.rows }
        ensures ignored { IfOk result (λ r. OnErr r (self.new ≡ self.old)) }
        ensures err { OnErr result (self.new ≡ self.old) }
        ensures open { is_some (row_at self.new.rows (height_of frame.statement)) ≡ true }
        ensures apart { AreApart (height_of frame.statement) self.old.rows self.new.rows }
        ensures same { IsSameRow self.old self.new }
        ensures own { AreOwn self.new }
        // The keys are the same.
        ensures keys { C.ring checks.new ≡ C.ring checks.old }
    {
        let place = self.place(frame.statement().height()).unwrap();
        self.slots[place]
            .as_mut()
            .unwrap()
            .read_with(alloc, checks, frame, clock)
    }

    /// The plan for opening the next round at an open height: the statement that the replica chooses to send, and all
    /// other effects. `clock` is the number of the round that closes. Changes nothing yet.
    pub fn plan_end(
        &self,
        alloc: Global,
        height: Height,
        clock: u32,
    ) -> Result<RoundPlan, AllocError>
        requires open { is_some (row_at self.now.rows height) ≡ true }
        requires clock { clock < last_round }
        ensures statement { IfOk result (λ plan. (row : InstanceView) → row_at self.now.rows height ≡ Some row → plan.statement ≡ chosen_statement row (clock + 1)) }
        ensures ending { IfOk result (λ plan. (row : InstanceView) → row_at self.now.rows height ≡ Some row → plan.ending ≡ opened_effects row (clock + 1)) }
        // It chooses only what every log that the height matches allows.
        ensures may { IfOk result (λ plan. (row : InstanceView) → row_at self.now.rows height ≡ Some row → (ring : Ring) (log : List Note)
            → MatchesLog ring row log → clock_of log ≡ clock → MayBeSent row log (clock + 1) plan.statement) }
        // If the statement is a lock, the reports in its proof are signed.
        ensures proofs { IfOk result (λ plan. (row : InstanceView) → row_at self.now.rows height ≡ Some row → (ring : Ring) (log : List Note)
            → MatchesLog ring row log → clock_of log ≡ clock → IfSome plan.statement (λ s. IsTrue (are_signed_reports ring s))) }
        // The statement is the replica's own, of this height, and can be encoded, whatever the log is.
        ensures signer { IfOk result (λ plan. IfSome plan.statement (λ s. signer_of s ≡ self.now.id)) }
        ensures height { IfOk result (λ plan. IfSome plan.statement (λ s. height_of s ≡ height)) }
        ensures spelled { IfOk result (λ plan. IfSome plan.statement IsStatement) }
        // In a lock-release round the replica sends on the locks that it holds.
        ensures sends_on { IfOk result (λ plan. (row : InstanceView) → row_at self.now.rows height ≡ Some row → (ring : Ring) (log : List Note)
            → MatchesLog ring row log → clock_of log ≡ clock → place_of (clock + 1) ≡ release_place → plan.ending.sends_on ≡ map frame_bytes (held_locks log)) }
        // Each of those frames reads back as a signed lock of the height.
        ensures readable { IfOk result (λ plan. (row : InstanceView) → row_at self.now.rows height ≡ Some row → (ring : Ring) (log : List Note)
            → MatchesLog ring row log → AllByRecursion (IsLockSentOn ring height) plan.ending.sends_on) }
        ensures own { AreOwn self.now }
    {
        self.get(height).unwrap().plan_end(alloc, clock)
    }

    /// The plans for opening the next round at each open height, in order.
    pub fn plan_ends(&self, alloc: Global, clock: u32) -> Result<Vec<RoundPlan>, AllocError>
        requires clock { clock < last_round }
        ensures plans { IfOk result (λ plans. plans.items ≡ map (height_plan (clock + 1)) self.now.rows) }
        // The statements can be encoded, whatever the log is.
        ensures spelled { IfOk result (λ plans. AllByRecursion (λ plan. IfSome plan.statement IsStatement) plans.items) }
        ensures ascend { AreAscending self.now.rows }
        ensures own { AreOwn self.now }
    {
        plan_each(alloc, &self.slots, clock)
    }

    /// Prepares the effects of ending round `clock` at each open height, in ascending order. Chooses no statement and
    /// changes nothing. The only error is allocation failure.
    pub fn prepare_ends(&self, alloc: Global, clock: u32) -> Result<Vec<RoundEffects>, AllocError>
        requires clock { clock < last_round }
        ensures endings { IfOk result (λ endings. endings.items ≡ map (λ row. opened_effects row (clock + 1)) self.now.rows) }
        ensures ascend { AreAscending self.now.rows }
        ensures own { AreOwn self.now }
    {
        prepare_each(alloc, &self.slots, clock)
    }

    /// Opens the next round at an open height: stores what was prepared for the end of the round, and the replica's own
    /// statement. Allocates nothing.
    pub fn close(&mut self, height: Height, ending: RoundEffects, made: RoundStatement, clock: u32)
        requires open { is_some (row_at self.old.rows height) ≡ true }
        requires clock { clock < last_round }
        requires ending { (row : InstanceView) → row_at self.old.rows height ≡ Some row → ending ≡ opened_effects row (clock + 1) }
        requires own { IsOwnMade self.old.config self.old.id made }
        // For every log that the height matched and that allows what is made: the height then matches that log,
        // continued with the round and with what is made.
        ensures matches { (row new : InstanceView) → row_at self.old.rows height ≡ Some row → row_at self.new.rows height ≡ Some new
            → (ring : Ring) (log : List Note) → MatchesLog ring row log → clock_of log ≡ clock → MayClose row log (clock + 1) made
            → IsSignedMade ring made → MatchesLog ring new (opened_by row log (clock + 1) made) }
        ensures open { is_some (row_at self.new.rows height) ≡ true }
        ensures apart { AreApart height self.old.rows self.new.rows }
        ensures same { IsSameRow self.old self.new }
        ensures own { AreOwn self.new }
    {
        let place = self.place(height).unwrap();
        self.slots[place]
            .as_mut()
            .unwrap()
            .close(ending, made, clock);
    }

    /// Opens the next round at each open height, in order, as [`HeightRow::close`] does at one. Allocates nothing.
    pub fn close_all(&mut self, closings: Vec<RoundClosing>, clock: u32)
        requires clock { clock < last_round }
        requires endings { map (λ c. c.ending) closings.items ≡ map (λ row. opened_effects row (clock + 1)) self.old.rows }
        requires own { AllByRecursion (λ c. IsOwnMade self.old.config self.old.id c.made) closings.items }
        ensures rows { self.new.rows ≡ closed_each (clock + 1) self.old.rows (map (λ c. c.made) closings.items) }
        ensures ascend { AreAscending self.new.rows }
        ensures same { IsSameRow self.old self.new }
        ensures own { AreOwn self.new }
    {
        close_each(&mut self.slots, closings, clock);
    }
}

//! Bytes arrive from the network.
use crate::replay::Replay;
use abci::Application;
use bytes::Bytes;
use instance::Instance;
use ledger_model::Ignored;
use signed_frames::Frame;
use statements::DecodeFault;
use std::alloc::{AllocError, Global};

impl<A: Application> Replay<A> {
    ghost use Rattle.std.specs.Prelude.{◌≡◌, ◌<◌, ℕ, List, Some, is_some, true, IsTrue, Ok, Err, IfOk, IfErr, OnOk, OnErr};
    ghost use Rattle.ledger_model.specs.declared.event.Event.TheVariants as event;
    ghost use Rattle.ledger_model.specs.declared.reply.Reply.TheVariants as reply;
    ghost use Rattle.ledger_model.specs.Notes.{signer_of, version_of};
    ghost use Rattle.ledger_model.specs.Logs.{height_of};
    ghost use Rattle.ledger_model.specs.Reading.{reading_in};
    ghost use Rattle.ledger_model.specs.Versions.{reads};
    ghost use Rattle.instance.specs.Instances.{InstanceView};
    ghost use Rattle.height_row.specs.Heights.{row_at};
    ghost use Rattle.ledger_model.specs.declared.history.Entry.{Entry};
    ghost use Rattle.replica_core.specs.Replays.{MatchesHistory};
    ghost use Rattle.replica_core.specs.Steps.{IsStep};
    ghost use Rattle.replica_core.specs.Placing.{answer_before_signature};

    /// The instance that can judge the frame, or why none can: the signer is not in the cluster, or the height is not open.
    fn find_place(&self, frame: &Frame) -> Result<&Instance, Ignored>
        ensures signer { OnOk result (signer_of frame.now.statement < self.now.config.replicas) }
        ensures row { IfOk result (λ instance. row_at self.now.rows (height_of frame.now.statement) ≡ Some instance.now) }
        ensures own { OnOk result ((row : InstanceView) → row_at self.now.rows (height_of frame.now.statement) ≡ Some row
            → row.config ≡ self.now.config) }
        ensures step { IfErr result (λ cause. (bytes : List ℕ) → reading_in self.now.config.frames bytes ≡ Some frame.now
            → IsStep A.meaning self.now (event.Deliver bytes) (reply.Delivered (Err cause)) self.now) }
        ensures cause { IfErr result (λ cause. (entries : List Entry) → MatchesHistory A.meaning self.now entries
            → answer_before_signature self.now.config self.now.id entries frame.now.statement ≡ Err cause) }
    {
        let statement = frame.statement();
        if statement.signer().number() >= self.config.replicas {
            return Err(Ignored::Signer);
        }
        match self.rows.get(statement.height()) {
            Some(instance) => Ok(instance),
            None => Err(Ignored::NoRow),
        }
    }

    /// The first cause for which the frame is ignored before its signature is checked, if one applies.
    pub(crate) fn cause_before_signature(&self, frame: &Frame) -> Result<(), Ignored>
        // This holds for every history that the core state matches.
        ensures { (entries : List Entry) → MatchesHistory A.meaning self.now entries
            → result ≡ answer_before_signature self.now.config self.now.id entries frame.now.statement }
    {
        self.find_place(frame)?.judge(frame.statement(), self.clock)
    }

    /// Reads or ignores a frame of an open height, whose signer is in the cluster. A frame that is ignored changes nothing.
    fn read(&mut self, alloc: Global, frame: Frame) -> Result<Result<(), Ignored>, AllocError>
        requires version { IsTrue (reads self.old.config.frames (version_of frame.statement)) }
        requires signer { signer_of frame.statement < self.old.config.replicas }
        requires there { is_some (row_at self.old.rows (height_of frame.statement)) ≡ true }
        requires own { (row : InstanceView) → row_at self.old.rows (height_of frame.statement) ≡ Some row → row.config ≡ self.old.config }
        ensures step { IfOk result (λ r. (bytes : List ℕ) → reading_in self.old.config.frames bytes ≡ Some frame
            → IsStep A.meaning self.old (event.Deliver bytes) (reply.Delivered r) self.new) }
        ensures rest { self.new ≡ record self.old { rows = self.new.rows } }
        ensures ignored { IfOk result (λ r. OnErr r (self.new ≡ self.old)) }
        ensures err { OnErr result (self.new ≡ self.old) }
    {
        self.rows
            .read_with(alloc, &mut self.verifier, frame, self.clock)
    }

    /// Reads or ignores a frame; it is ignored with the first cause that applies, and then changes nothing.
    fn take(&mut self, alloc: Global, frame: Frame) -> Result<Result<(), Ignored>, AllocError>
        requires version { IsTrue (reads self.old.config.frames (version_of frame.statement)) }
        ensures step { IfOk result (λ r. (bytes : List ℕ) → reading_in self.old.config.frames bytes ≡ Some frame
            → IsStep A.meaning self.old (event.Deliver bytes) (reply.Delivered r) self.new) }
        ensures rest { self.new ≡ record self.old { rows = self.new.rows } }
        ensures ignored { IfOk result (λ r. OnErr r (self.new ≡ self.old)) }
        ensures err { OnErr result (self.new ≡ self.old) }
    {
        match self.find_place(&frame) {
            Ok(_) => self.read(alloc, frame),
            Err(cause) => Ok(Err(cause)),
        }
    }

    /// Takes bytes from the network. Reads a frame that fits; ignores everything else with the first cause that
    /// applies, and then changes nothing.
    pub(crate) fn deliver(
        &mut self,
        alloc: Global,
        bytes: &Bytes,
    ) -> Result<Result<(), Ignored>, AllocError>
        ensures step { IfOk result (λ r. IsStep A.meaning self.old (event.Deliver bytes.now) (reply.Delivered r) self.new) }
        ensures rest { self.new ≡ record self.old { rows = self.new.rows } }
        ensures ignored { IfOk result (λ r. OnErr r (self.new ≡ self.old)) }
        ensures err { OnErr result (self.new ≡ self.old) }
    {
        match Frame::parse_in(self.config.frames, alloc, bytes.clone()?) {
            Ok(frame) => self.take(alloc, frame),
            Err(DecodeFault::Malformed) => Ok(Err(Ignored::Malformed)),
            Err(DecodeFault::NoMemory) => Err(AllocError),
        }
    }
}

//! A reader of frames from a stream that arrives in pieces.
use crate::splitting::{End, read_on};
use crate::{Frame, FrameFault};
use bytes::BytesMut;
use ledger_model::Version;
use std::alloc::Global;
use std::marker::Model;

/// The state of a reader.
#[derive(Clone, Copy, Debug, PartialEq, Eq)]
enum Stage {
    /// No fault was found.
    Reading,
    /// A fault was found after frames that were returned; the next call returns it.
    Found(FrameFault),
    /// A fault was returned.
    Failed,
}

/// Takes a stream of frames of one version in pieces.
#[derive(Debug, Drop)]
pub struct FrameReader {
    version: Version,
    /// The first bytes of the next frame; none between two frames.
    kept: BytesMut,
    stage: Stage,
}

impl Model for FrameReader {
    ghost use Rattle.signed_frames.specs.Reader.{FrameReaderView, reader_at};

    ghost Value = { FrameReaderView };

    ghost view = { λ r. record { version = r.version; state = reader_at r.stage r.kept.items } };
}

impl FrameReader {
    ghost use Rattle.std.specs.Prelude.{◌≡◌, ◌↔◌, ◌++◌, ℕ, List, [], IsTrue, IfOk, IfErr, MatchResult};
    ghost use Rattle.ledger_model.specs.declared.statement.SignedStatement.{SignedStatement};
    ghost use Rattle.ledger_model.specs.declared.version.Version.TheVariants.{One};
    ghost use Rattle.ledger_model.specs.Streams.{BeginsTooLong, BeginsMalformed, SplitsTo, BreaksOff};
    ghost use Rattle.signed_frames.specs.Reader.{Reading, Found, HandsOut, ReturnsFault, FaultAt};

    /// A reader at the start of a stream of frames of version 1: [`FrameReader::new_in`] with version 1.
    pub fn new(alloc: Global) -> Self
        ensures { result ≡ record { version = One; state = Reading [] } }
    {
        FrameReader::new_in(Version::One, alloc)
    }

    /// A reader at the start of a stream of frames of this version.
    pub fn new_in(version: Version, alloc: Global) -> Self
        ensures { result ≡ record { version = version; state = Reading [] } }
    {
        FrameReader {
            version,
            kept: BytesMut::new(alloc),
            stage: Stage::Reading,
        }
    }

    /// Whether the stream may end here: no frame is incomplete, and no fault was found.
    pub fn is_between(&self) -> bool
        ensures { IsTrue result ↔ (self.now.state ≡ Reading []) }
    {
        self.stage == Stage::Reading && self.kept.is_empty()
    }

    fn take_piece(&mut self, piece: &[u8]) -> Result<Vec<Frame>, FrameFault>
        ensures version { self.new.version ≡ self.old.version }
        ensures frames { IfOk result (λ frames. HandsOut self.old.version self.old.state piece.now frames.items self.new.state) }
        ensures fault { IfErr result (λ fault. ReturnsFault self.old.version self.old.state piece.now fault self.new.state) }
    {
        match self.stage {
            Stage::Reading => {}
            Stage::Found(fault) => {
                self.stage = Stage::Failed;
                return Err(fault);
            }
            Stage::Failed => return Err(FrameFault::Failed),
        }
        let (frames, end) = read_on(self.version, &mut self.kept, piece)?;
        let fault = match end {
            End::Partial => return Ok(frames),
            End::TooLong => FrameFault::TooLong,
            End::Malformed => FrameFault::Malformed,
        };
        // Nothing after a fault is read.
        self.kept = BytesMut::new(*self.kept.allocator());
        if frames.is_empty() {
            self.stage = Stage::Failed;
            return Err(fault);
        }
        self.stage = Stage::Found(fault);
        Ok(frames)
    }

    /// Takes the next piece of the stream, and returns the frames that are complete now, in order.
    ///
    /// If a fault follows frames, the next call returns it, whatever its piece, and every later call returns `Failed`.
    /// `NoMemory` changes nothing.
    pub fn feed(&mut self, piece: &[u8]) -> Result<Vec<Frame>, FrameFault>
        // The frames that are returned, and the reader afterwards.
        ensures frames { IfOk result (λ frames. HandsOut self.old.version self.old.state piece.now frames.items self.new.state) }
        // The fault that is returned, and the reader afterwards.
        ensures fault { IfErr result (λ fault. ReturnsFault self.old.version self.old.state piece.now fault self.new.state) }
        // It still takes frames of the same version.
        ensures version { self.new.version ≡ self.old.version }
        // If the bytes are frames followed by less than a whole frame, those frames are returned, unless memory runs out.
        ensures whole { (kept rest : List ℕ) (frames : List SignedStatement) → self.old.state ≡ Reading kept
            → SplitsTo self.old.version (kept ++ piece.now) frames rest
            → MatchResult result (λ out. (out.items ≡ frames) × (self.new.state ≡ Reading rest)) (λ fault. fault ≡ FrameFault.NoMemory) }
        // If a length that is too long follows frames, those frames are returned; if there are none, the fault is.
        ensures too_long { (kept : List ℕ) (frames : List SignedStatement) → self.old.state ≡ Reading kept
            → BreaksOff BeginsTooLong self.old.version (kept ++ piece.now) frames
            → MatchResult result (λ out. (out.items ≡ frames) × (self.new.state ≡ Found FrameFault.TooLong))
            (λ fault. FaultAt frames FrameFault.TooLong fault) }
        // The same for a body that encodes nothing.
        ensures malformed { (kept : List ℕ) (frames : List SignedStatement) → self.old.state ≡ Reading kept
            → BreaksOff BeginsMalformed self.old.version (kept ++ piece.now) frames
            → MatchResult result (λ out. (out.items ≡ frames) × (self.new.state ≡ Found FrameFault.Malformed))
            (λ fault. FaultAt frames FrameFault.Malformed fault) }
    {
        self.take_piece(piece)
    }
}

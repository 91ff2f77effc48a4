//! The frames of the reports that a replica sent, or that liars signed.
ghost use Rattle.std.specs.Prelude.{◌≡◌, ◌≤◌, ◌++◌, ◌∷◌, [], map, length, take, slice_get, IfOk, IfSome, OnOk};
ghost use Rattle.ledger_model.specs.Spelling.{IsSignedReport};
ghost use Rattle.ledger_model.specs.Worlds.{frames_sent};
ghost use Rattle.simulation.specs.Lies.{first_serving, frames_with};
ghost use Rattle.simulation.specs.Indexes.{report_frames};

use crate::serving_reports::serving_bytes;
use abci::Application;
use bytes::Bytes;
use ledger_model::{Height, Phase, ReplicaId, SignedReport, Statement, Version};
use locked_replica::{ReplyView, RoundEndView, State};
use scenario_texts::Lie;
use signed_frames::Frame;
use statements::DecodeFault;
use std::alloc::{AllocError, Global};

/// The frame of a report, with the signer, the height and the phase by which the report is looked up.
pub(crate) struct ReportFrame {
    pub(crate) signer: ReplicaId,
    pub(crate) height: Height,
    pub(crate) phase: Phase,
    /// The bytes of the frame, which are shared with the history.
    pub(crate) frame: Bytes,
}

// An own `Drop` keeps proofs short: an owner drops it by one call. See docs/WORKING.md.
impl Drop for ReportFrame {
    fn drop(self) {
        let ReportFrame {
            signer: _signer,
            height: _height,
            phase: _phase,
            frame: _frame,
        } = self;
    }
}

/// The frames of reports among the first `seen` entries of a history, or among the first `seen` frames that liars signed.
#[derive(Drop)]
pub(crate) struct ReportList {
    pub(crate) reports: Vec<ReportFrame>,
    pub(crate) seen: usize,
}

impl ReportFrame {
    ghost use Rattle.simulation.specs.Indexes.{is_at};

    /// Whether the report is this replica's, at the lie's height and in the source phase.
    fn is_at(&self, lie: &Lie, source: Phase, replica: ReplicaId) -> bool
        ensures { result ≡ is_at lie.now source replica self.now }
    {
        self.signer == replica && self.height == lie.height && self.phase == source
    }
}

/// Appends the frame if it is one of a report.
fn add_frame(alloc: Global, reports: &mut Vec<ReportFrame>, bytes: &Bytes) -> Result<(), AllocError>
    ensures { OnOk result (reports.new.items ≡ reports.old.items ++ report_frames (bytes.now ∷ [])) }
{
    match Frame::parse_in(Version::Two, alloc, bytes.clone()?) {
        Ok(frame) => match frame.statement() {
            Statement::Report(report) => {
                reports.push(ReportFrame {
                    signer: report.signer,
                    height: report.height,
                    phase: report.phase,
                    frame: bytes.clone()?,
                })?;
                Ok(())
            }
            _ => Ok(()),
        },
        Err(DecodeFault::Malformed) => Ok(()),
        Err(DecodeFault::NoMemory) => Err(AllocError),
    }
}

/// Appends the frames of reports among those of a round end.
fn add_end(
    alloc: Global,
    reports: &mut Vec<ReportFrame>,
    end: &RoundEndView<'_>,
) -> Result<(), AllocError>
    ensures { OnOk result (reports.new.items ≡ reports.old.items ++ report_frames (map (λ f. f.frame) end.now.frames)) }
{
    for place in 0..end.len() {
        if let Some(sent) = end.frame(place) {
            add_frame(alloc, reports, sent.frame)?;
        }
    }
    Ok(())
}

/// Appends the frames of reports among those of an entry.
#[tactic(auto, using(crate::proofs::Indexing::reports_none))]
fn add_entry<A: Application>(
    alloc: Global,
    reports: &mut Vec<ReportFrame>,
    state: &State<A>,
    index: usize,
) -> Result<(), AllocError>
    ensures { OnOk result (reports.new.items ≡ reports.old.items ++ report_frames (frames_with (slice_get state.now.entries index))) }
{
    match state.entry(index) {
        Some(entry) => match entry.reply() {
            ReplyView::RoundEnded(Ok(end)) => add_end(alloc, reports, &end),
            _ => Ok(()),
        },
        None => Ok(()),
    }
}

/// Appends the frames of reports among those of the entries from this one on.
fn add_entries<A: Application>(
    alloc: Global,
    reports: &mut Vec<ReportFrame>,
    state: &State<A>,
    from: usize,
) -> Result<(), AllocError>
    requires from { from ≤ length state.now.entries }
    requires reports { reports.old.items ≡ report_frames (frames_sent (take from state.now.entries)) }
    ensures { OnOk result (reports.new.items ≡ report_frames (frames_sent state.now.entries)) }
{
    for index in from..state.len() {
        add_entry(alloc, reports, state, index)?;
    }
    Ok(())
}

/// Appends the frames of reports among these frames, from this one on.
fn add_frames(
    alloc: Global,
    reports: &mut Vec<ReportFrame>,
    frames: &[Bytes],
    from: usize,
) -> Result<(), AllocError>
    requires from { from ≤ length frames.now }
    requires reports { reports.old.items ≡ report_frames (take from frames.now) }
    ensures { OnOk result (reports.new.items ≡ report_frames frames.now) }
{
    for index in from..frames.len() {
        add_frame(alloc, reports, &frames[index])?;
    }
    Ok(())
}

impl ReportList {
    ghost use Rattle.simulation.specs.Indexes.{CoversHistory, CoversFrames, frames_of_report};

    /// The empty list, which has seen nothing.
    pub(crate) fn new(alloc: Global) -> Self
        ensures reports { result.reports.items ≡ [] }
        ensures seen { result.seen ≡ 0 }
    {
        ReportList {
            reports: Vec::new(alloc),
            seen: 0,
        }
    }

    /// Drops all reports: the next call walks over all frames again.
    fn clear(&mut self)
        ensures reports { self.new.reports.items ≡ [] }
        ensures seen { self.new.seen ≡ 0 }
    {
        self.reports.clear();
        self.seen = 0;
    }

    /// Extends the list by what the replica sent since the last call. After an error the list is empty.
    pub(crate) fn follow_history<A: Application>(
        &mut self,
        alloc: Global,
        state: &State<A>,
    ) -> Result<(), AllocError>
        requires { CoversHistory self.old state.now.entries }
        ensures whole { OnOk result (self.new.reports.items ≡ report_frames (frames_sent state.now.entries)) }
        ensures covers { CoversHistory self.new state.now.entries }
    {
        let from = self.seen;
        match add_entries(alloc, &mut self.reports, state, from) {
            Ok(()) => {
                self.seen = state.len();
                Ok(())
            }
            Err(error) => {
                self.clear();
                Err(error)
            }
        }
    }

    /// Extends the list by what liars signed since the last call. After an error the list is empty.
    pub(crate) fn follow_frames(
        &mut self,
        alloc: Global,
        frames: &[Bytes],
    ) -> Result<(), AllocError>
        requires { CoversFrames self.old frames.now }
        ensures whole { OnOk result (self.new.reports.items ≡ report_frames frames.now) }
        ensures covers { CoversFrames self.new frames.now }
    {
        let from = self.seen;
        match add_frames(alloc, &mut self.reports, frames, from) {
            Ok(()) => {
                self.seen = frames.len();
                Ok(())
            }
            Err(error) => {
                self.clear();
                Err(error)
            }
        }
    }

    /// The first report that serves in a proof of the lie's lock. Only reports of the lie's height and the source phase are parsed.
    ///
    /// The only error is allocation failure.
    pub(crate) fn first_serving(
        &self,
        alloc: Global,
        lie: &Lie,
        source: Phase,
        replica: ReplicaId,
    ) -> Result<Option<SignedReport>, AllocError>
        ensures found { IfOk result (λ found. found ≡ first_serving lie.now source replica (frames_of_report lie.now source replica self.now.reports.items)) }
        ensures spelled { IfOk result (λ found. IfSome found (λ signed. IsSignedReport lie.now.version signed)) }
    {
        for report in &self.reports {
            if report.is_at(lie, source, replica) {
                let found = serving_bytes(alloc, lie, source, replica, &report.frame)?;
                if found.is_some() {
                    return Ok(found);
                }
            }
        }
        Ok(None)
    }
}

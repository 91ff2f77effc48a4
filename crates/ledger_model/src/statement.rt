//! The statements that replicas send to each other: reports, locks and acknowledgements.
ghost use Rattle.std.specs.Prelude.{◌≡◌, IfOk};
ghost use Rattle.std.specs.List.{list_any, list_all};
ghost use Rattle.ledger_model.specs.Values.{same_value};

use crate::{Batch, Height, Phase, ReplicaId, Version};
use std::alloc::{AllocError, Global};
use std::marker::Model;

/// A list of batches, as a report contains it.
#[derive(Debug, Drop)]
pub struct Batches {
    batches: Vec<Batch>,
}

impl Model for Batches {
    ghost use Rattle.std.specs.Prelude.{ℕ, List};

    ghost Value = { List (List (List ℕ)) };

    ghost view = { λ b. b.batches.items };
}

impl Batches {
    ghost use Rattle.std.specs.Prelude.{◌≡◌, IfOk};

    /// The list of these batches, in order.
    pub fn new(batches: Vec<Batch>) -> Self
        ensures { result ≡ batches.items }
    {
        Batches { batches }
    }

    /// The list of copies of these batches, in order.
    pub fn from_slice(alloc: Global, batches: &[Batch]) -> Result<Self, AllocError>
        ensures { IfOk result (λ list. list ≡ batches.now) }
    {
        Ok(Batches {
            batches: copy_batches(alloc, batches)?,
        })
    }

    /// The batches, in order. Allocates nothing.
    pub fn into_vec(self) -> Vec<Batch>
        ensures { result.items ≡ self }
    {
        self.batches
    }

    /// The batches, in order.
    pub fn as_slice(&self) -> &[Batch]
        ensures { result.now ≡ self.now }
    {
        self.batches.as_slice()
    }

    /// A copy of the list. The only error is allocation failure.
    pub fn copy(&self) -> Result<Self, AllocError>
        ensures { IfOk result (λ list. list ≡ self.now) }
    {
        let alloc = *self.batches.allocator();
        let batches = copy_batches(alloc, self.batches.as_slice())?;
        Ok(Batches { batches })
    }
}

fn copy_batches(alloc: Global, batches: &[Batch]) -> Result<Vec<Batch>, AllocError>
    ensures { IfOk result (λ copied. copied.items ≡ batches.now) }
{
    let mut copied = Vec::with_capacity(alloc, batches.len())?;
    for batch in batches {
        copied.push(batch.copy()?)?;
    }
    Ok(copied)
}

/// The bytes of a signature.
#[derive(Debug, Drop)]
pub struct Signature {
    bytes: Vec<u8>,
}

impl Model for Signature {
    ghost use Rattle.std.specs.Prelude.{ℕ, List};

    ghost Value = { List ℕ };

    ghost view = { λ s. s.bytes.items };
}

impl Signature {
    ghost use Rattle.std.specs.Prelude.{◌≡◌, IfOk};

    /// The most bytes of a signature: the longest RFC 8554 signature under the parameter sets in use.
    pub const MAX_LEN: usize = 2508;

    /// A signature of these bytes.
    pub fn new(bytes: Vec<u8>) -> Self
        ensures { result ≡ bytes.items }
    {
        Signature { bytes }
    }

    /// Its bytes.
    pub fn as_bytes(&self) -> &[u8]
        ensures { result.now ≡ self.now }
    {
        self.bytes.as_slice()
    }

    /// A copy of the signature. The only error is allocation failure.
    pub fn copy(&self) -> Result<Self, AllocError>
        ensures { IfOk result (λ signature. signature ≡ self.now) }
    {
        Ok(Signature {
            bytes: self.bytes.clone()?,
        })
    }
}

/// A replica's report on a height as a phase opens: its initial value, the values that it finds proper, and those that
/// it holds locks on.
#[derive(Debug)]
pub struct Report {
    pub version: Version,
    pub height: Height,
    pub phase: Phase,
    pub signer: ReplicaId,
    /// Whether every batch is proper.
    pub all: bool,
    pub initial: Batch,
    pub proper: Batches,
    pub locked: Batches,
}

// An own `Drop` keeps proofs short: an owner drops it by one call. See docs/WORKING.md.
impl Drop for Report {
    fn drop(self) {
        let Report {
            version: _version,
            height: _height,
            phase: _phase,
            signer: _signer,
            all: _all,
            initial: _initial,
            proper: _proper,
            locked: _locked,
        } = self;
    }
}

fn holds_value(values: &[Batch], value: &Batch) -> bool
    ensures { result ≡ list_any (same_value value.now) values.now }
{
    values.iter().any(|listed| value == listed)
}

fn holds_only(values: &[Batch], value: &Batch) -> bool
    ensures { result ≡ list_all (same_value value.now) values.now }
{
    values.iter().all(|listed| value == listed)
}

impl Report {
    ghost use Rattle.std.specs.Prelude.{◌≡◌, IfOk};
    ghost use Rattle.ledger_model.specs.Locks.{names, finds};

    /// Whether the report names the value: the report lists it as proper, or reports that every batch is.
    pub fn names(&self, value: &Batch) -> bool
        ensures { result ≡ names self.now value.now }
    {
        self.all || holds_value(self.proper.as_slice(), value)
    }

    /// Whether the report finds the value: it names the value, and every lock that it lists is on that value.
    pub fn finds(&self, value: &Batch) -> bool
        ensures { result ≡ finds self.now value.now }
    {
        self.names(value) && holds_only(self.locked.as_slice(), value)
    }

    /// A copy of the report. The only error is allocation failure.
    pub fn copy(&self) -> Result<Self, AllocError>
        ensures { IfOk result (λ report. report ≡ self.now) }
    {
        Ok(Report {
            version: self.version,
            height: self.height,
            phase: self.phase,
            signer: self.signer,
            all: self.all,
            initial: self.initial.copy()?,
            proper: self.proper.copy()?,
            locked: self.locked.copy()?,
        })
    }
}

/// A report and its signer's signature.
#[derive(Debug)]
pub struct SignedReport {
    pub report: Report,
    pub signature: Signature,
}

// An own `Drop` keeps proofs short: an owner drops it by one call. See docs/WORKING.md.
impl Drop for SignedReport {
    fn drop(self) {
        let SignedReport {
            report: _report,
            signature: _signature,
        } = self;
    }
}

impl SignedReport {
    ghost use Rattle.std.specs.Prelude.{◌≡◌, IfOk};

    /// A copy of the signed report. The only error is allocation failure.
    pub fn copy(&self) -> Result<Self, AllocError>
        ensures { IfOk result (λ signed. signed ≡ self.now) }
    {
        Ok(SignedReport {
            report: self.report.copy()?,
            signature: self.signature.copy()?,
        })
    }
}

/// The signed reports that support a lock.
#[derive(Debug, Drop)]
pub struct LockProof {
    reports: Vec<SignedReport>,
}

impl Model for LockProof {
    ghost use Rattle.std.specs.Prelude.{List};
    ghost use Rattle.ledger_model.specs.declared.statement.SignedReport.{SignedReport};

    ghost Value = { List SignedReport };

    ghost view = { λ p. p.reports.items };
}

impl LockProof {
    ghost use Rattle.std.specs.Prelude.{◌≡◌, IfOk};

    /// A proof of these reports, in order.
    pub fn new(reports: Vec<SignedReport>) -> Self
        ensures { result ≡ reports.items }
    {
        LockProof { reports }
    }

    /// The reports, in order.
    pub fn as_slice(&self) -> &[SignedReport]
        ensures { result.now ≡ self.now }
    {
        self.reports.as_slice()
    }

    /// A copy of the proof. The only error is allocation failure.
    pub fn copy(&self) -> Result<Self, AllocError>
        ensures { IfOk result (λ proof. proof ≡ self.now) }
    {
        let alloc = *self.reports.allocator();
        let reports = copy_reports(alloc, self.reports.as_slice())?;
        Ok(LockProof { reports })
    }
}

fn copy_reports(alloc: Global, reports: &[SignedReport]) -> Result<Vec<SignedReport>, AllocError>
    ensures { IfOk result (λ copied. copied.items ≡ reports.now) }
{
    let mut copied = Vec::with_capacity(alloc, reports.len())?;
    for report in reports {
        copied.push(report.copy()?)?;
    }
    Ok(copied)
}

/// A lock: the value that a phase's owner chose, with the reports that allow it.
#[derive(Debug)]
pub struct Lock {
    pub version: Version,
    pub height: Height,
    pub phase: Phase,
    pub signer: ReplicaId,
    pub value: Batch,
    pub proof: LockProof,
}

// An own `Drop` keeps proofs short: an owner drops it by one call. See docs/WORKING.md.
impl Drop for Lock {
    fn drop(self) {
        let Lock {
            version: _version,
            height: _height,
            phase: _phase,
            signer: _signer,
            value: _value,
            proof: _proof,
        } = self;
    }
}

impl Lock {
    ghost use Rattle.std.specs.Prelude.{◌≡◌, IfOk};

    /// A copy of the lock. The only error is allocation failure.
    pub fn copy(&self) -> Result<Self, AllocError>
        ensures { IfOk result (λ lock. lock ≡ self.now) }
    {
        Ok(Lock {
            version: self.version,
            height: self.height,
            phase: self.phase,
            signer: self.signer,
            value: self.value.copy()?,
            proof: self.proof.copy()?,
        })
    }
}

/// A replica's acknowledgement that it took the lock of a phase.
#[derive(Debug, Drop)]
pub struct Ack {
    pub version: Version,
    pub height: Height,
    pub phase: Phase,
    pub signer: ReplicaId,
    pub value: Batch,
}

impl Ack {
    ghost use Rattle.std.specs.Prelude.{◌≡◌, IfOk};

    /// A copy of the acknowledgement. The only error is allocation failure.
    pub fn copy(&self) -> Result<Self, AllocError>
        ensures { IfOk result (λ ack. ack ≡ self.now) }
    {
        Ok(Ack {
            version: self.version,
            height: self.height,
            phase: self.phase,
            signer: self.signer,
            value: self.value.copy()?,
        })
    }
}

/// A statement, as replicas sign and send it.
#[derive(Debug, Drop)]
pub enum Statement {
    Report(Report),
    Lock(Lock),
    Ack(Ack),
}

impl Statement {
    ghost use Rattle.std.specs.Prelude.{◌≡◌, IfOk};
    ghost use Rattle.ledger_model.specs.Notes.{signer_of, version_of};
    ghost use Rattle.ledger_model.specs.Logs.{height_of};
    ghost use Rattle.ledger_model.specs.Rules.{phase_in};

    /// A copy of the statement. The only error is allocation failure.
    pub fn copy(&self) -> Result<Self, AllocError>
        ensures { IfOk result (λ statement. statement ≡ self.now) }
    {
        match self {
            Statement::Report(report) => Ok(Statement::Report(report.copy()?)),
            Statement::Lock(lock) => Ok(Statement::Lock(lock.copy()?)),
            Statement::Ack(ack) => Ok(Statement::Ack(ack.copy()?)),
        }
    }

    /// The replica that made the statement.
    pub fn signer(&self) -> ReplicaId
        ensures { result ≡ signer_of self.now }
    {
        match self {
            Statement::Report(report) => report.signer,
            Statement::Lock(lock) => lock.signer,
            Statement::Ack(ack) => ack.signer,
        }
    }

    /// The version that the statement has.
    pub fn version(&self) -> Version
        ensures { result ≡ version_of self.now }
    {
        match self {
            Statement::Report(report) => report.version,
            Statement::Lock(lock) => lock.version,
            Statement::Ack(ack) => ack.version,
        }
    }

    /// The height that the statement is about.
    pub fn height(&self) -> Height
        ensures { result ≡ height_of self.now }
    {
        match self {
            Statement::Report(report) => report.height,
            Statement::Lock(lock) => lock.height,
            Statement::Ack(ack) => ack.height,
        }
    }

    /// The phase that the statement belongs to.
    pub fn phase(&self) -> Phase
        ensures { result ≡ phase_in self.now }
    {
        match self {
            Statement::Report(report) => report.phase,
            Statement::Lock(lock) => lock.phase,
            Statement::Ack(ack) => ack.phase,
        }
    }
}

/// A statement and its signer's signature, as a frame encodes them.
#[derive(Debug, Drop)]
pub struct SignedStatement {
    pub statement: Statement,
    pub signature: Signature,
}

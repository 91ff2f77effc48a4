//! What a replica may send as a round opens.
ghost use Rattle.std.specs.Prelude.{◌≡◌};
ghost use Rattle.std.specs.Cmp.Lexicographic.{pointwise};
ghost use Rattle.ledger_model.specs.Values.{same_value};
ghost use Rattle.instance.specs.Plans.{same_report, same_signed};

use crate::height::Instance;
use ledger_model::{
    Ack, Batch, Lock, Phase, Place, Report, SignedReport, Statement, phase_of, place_of,
};
use lock_proofs::{is_quorate, is_supporting};
use phase_core::chosen_value;

/// Whether two reports are equal.
fn same_report(one: &Report, other: &Report) -> bool
    ensures { result ≡ same_report one.now other.now }
{
    one.version == other.version
        && one.height == other.height
        && one.phase == other.phase
        && one.signer == other.signer
        && one.all == other.all
        && one.initial == other.initial
        && one.proper.as_slice() == other.proper.as_slice()
        && one.locked.as_slice() == other.locked.as_slice()
}

/// Whether two signed reports are equal, signatures included.
fn same_signed(one: &SignedReport, other: &SignedReport) -> bool
    ensures { result ≡ same_signed one.now other.now }
{
    same_report(&one.report, &other.report)
        && one.signature.as_bytes() == other.signature.as_bytes()
}

impl Instance {
    ghost use Rattle.std.specs.Prelude.{◌≡◌, ◌<◌, ◌≤◌, ◌+◌, List, Option, Some, None, true, IsTrue, IfSome};
    ghost use Rattle.std.specs.Cmp.Lexicographic.{pointwise};
    ghost use Rattle.std.specs.List.{list_all};
    ghost use Rattle.std.specs.Option.{option_copied};
    ghost use Rattle.ledger_model.specs.declared.statement.Statement.{Statement};
    ghost use Rattle.ledger_model.specs.Values.{same_value};
    ghost use Rattle.ledger_model.specs.Notes.{Note, clock_of};
    ghost use Rattle.ledger_model.specs.Rules.{Ring};
    ghost use Rattle.ledger_model.specs.Lawful.{are_signed_reports};
    ghost use Rattle.lock_proofs.specs.Tables.{values_of};
    ghost use Rattle.instance.specs.Matching.{MatchesLog};
    ghost use Rattle.instance.specs.Plans.{own_report, is_kept, is_own_lock, is_own_ack, may_send_report, may_send_lock, may_send_ack, may_send, same_report, IsOwnStatement};
    ghost use Rattle.instance.specs.Laws.{MayBeSent};
    ghost use Rattle.ledger_model.specs.Limits.{last_round};

    /// Whether these are exactly the values of the held locks, in order.
    fn holds_just(&self, values: &[Batch]) -> bool
        ensures { result ≡ pointwise same_value values.now (values_of self.now.table) }
    {
        let held = self.locks.held();
        if values.len() != held.len() {
            return false;
        }
        for (place, lock) in held.iter().enumerate() {
            if values[place] != *lock.value() {
                return false;
            }
        }
        true
    }

    /// Whether this is the replica's own report of the phase.
    fn is_own_report(&self, report: &Report, phase: Phase) -> bool
        ensures { result ≡ same_report report.now (own_report self.now phase) }
    {
        report.version == self.config.frames
            && report.height == self.height
            && report.phase == phase
            && report.signer == self.id
            && report.all == self.proper.all()
            && report.initial == *self.proper.own()
            && report.proper.as_slice() == self.proper.explicit()
            && self.holds_just(report.locked.as_slice())
    }

    /// Whether the instance has this report, with this signature.
    fn keeps(&self, signed: &SignedReport) -> bool
        ensures { result ≡ is_kept self.now signed.now }
    {
        match self.reports.get(signed.report.signer) {
            Some(kept) => same_signed(signed, kept),
            None => false,
        }
    }

    /// Whether the instance has each of these reports, with these signatures.
    fn keeps_all(&self, reports: &[SignedReport]) -> bool
        ensures { result ≡ list_all (is_kept self.now) reports.now }
    {
        reports.iter().all(|signed| self.keeps(signed))
    }

    /// Whether this is a lock that the replica may make as the owner of the phase.
    fn is_own_lock(&self, lock: &Lock, phase: Phase) -> bool
        ensures { result ≡ is_own_lock self.now phase lock.now }
    {
        lock.version == self.config.frames
            && lock.height == self.height
            && lock.phase == phase
            && lock.signer == self.id
            && is_quorate(&self.config, lock)
            && is_supporting(lock)
            && self.keeps_all(lock.proof.as_slice())
    }

    /// Whether this is the replica's own acknowledgement of the value.
    fn is_own_ack(&self, ack: &Ack, phase: Phase, value: &Batch) -> bool
        ensures { result ≡ is_own_ack self.now phase value.now ack.now }
    {
        ack.version == self.config.frames
            && ack.height == self.height
            && ack.phase == phase
            && ack.signer == self.id
            && ack.value == *value
    }

    /// Whether the replica may send this as the round of locks opens.
    fn may_send_lock(&self, sent: Option<&Statement>, phase: Phase) -> bool
        ensures { result ≡ may_send_lock self.now phase (option_copied sent.entry) }
    {
        let is_owner = self.config.owner_of(phase) == self.id;
        match sent {
            Some(Statement::Lock(lock)) => is_owner && self.is_own_lock(lock, phase),
            Some(_) => false,
            None => {
                !is_owner || chosen_value(&self.config, &self.reports, self.proper.own()).is_none()
            }
        }
    }

    /// Whether the replica may send this as the round of acknowledgements opens.
    fn may_send_ack(&self, sent: Option<&Statement>, phase: Phase) -> bool
        ensures { result ≡ may_send_ack self.now phase (option_copied sent.entry) }
    {
        let is_owner = self.config.owner_of(phase) == self.id;
        match (sent, &self.taken) {
            (Some(Statement::Ack(ack)), Some(value)) => {
                !is_owner && self.is_own_ack(ack, phase, value)
            }
            (Some(_), _) => false,
            (None, taken) => is_owner || taken.is_none(),
        }
    }

    /// Whether the replica may send this as the round of reports opens.
    fn may_send_report(&self, sent: Option<&Statement>, phase: Phase) -> bool
        ensures { result ≡ may_send_report self.now phase (option_copied sent.entry) }
    {
        match sent {
            Some(Statement::Report(report)) => self.is_own_report(report, phase),
            _ => false,
        }
    }

    /// Whether the replica may send this as the round opens.
    #[tactic(auto, unfolding(crate::specs::Plans::may_send))]
    fn may_send(&self, sent: Option<&Statement>, round: u32) -> bool
        requires { (1 ≤ round) × (round ≤ last_round) }
        ensures { result ≡ may_send self.now round (option_copied sent.entry) }
    {
        let phase = phase_of(round);
        match place_of(u64::from(round)) {
            Place::Reports => self.may_send_report(sent, phase),
            Place::Lock => self.may_send_lock(sent, phase),
            Place::Acknowledgements => self.may_send_ack(sent, phase),
            Place::Release => sent.is_none(),
        }
    }

    /// Whether a replica that is not mute may send the statement, or nothing, as the next round opens. `clock` is the
    /// number of the round that closes. Allocates nothing.
    ///
    /// This doesn't cover an owner's acknowledgement of its own lock, which it makes and doesn't send. A mute replica
    /// sends nothing.
    pub fn may_make(&self, clock: u32, sent: Option<&Statement>) -> bool
        requires clock { clock < last_round }
        // It may exactly if every log that the instance matches allows it.
        ensures may { (ring : Ring) (log : List Note) → MatchesLog ring self.now log → clock_of log ≡ clock → result ≡ true
            → MayBeSent self.now log (clock + 1) (option_copied sent.entry) }
        ensures only { (ring : Ring) (log : List Note) → MatchesLog ring self.now log → clock_of log ≡ clock
            → MayBeSent self.now log (clock + 1) (option_copied sent.entry) → result ≡ true }
        // If the statement is a lock, the reports in its proof are signed.
        ensures proofs { (ring : Ring) (log : List Note) → MatchesLog ring self.now log → clock_of log ≡ clock → result ≡ true
            → IfSome (option_copied sent.entry) (λ s. IsTrue (are_signed_reports ring s)) }
        // What it may send is its own statement, of this height, whatever the log is.
        ensures own { result ≡ true → IfSome (option_copied sent.entry) (IsOwnStatement self.now) }
    {
        self.may_send(sent, clock + 1)
    }
}

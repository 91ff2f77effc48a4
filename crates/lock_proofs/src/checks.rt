//! The tests that a lock must pass, apart from its signatures.

ghost use Rattle.std.specs.Prelude.{◌≡◌, ◌==◌, ◌&&◌};
ghost use Rattle.std.specs.List.{list_all};
ghost use Rattle.ledger_model.specs.Rounds.{owner_of};
ghost use Rattle.ledger_model.specs.Validity.{ascends_within, signers_of, is_quorate, is_supporting};

use ledger_model::{Config, Lock, SignedReport};

/// Whether the lock's signer is the owner of its phase.
pub fn is_of_owner(config: &Config, lock: &Lock) -> bool
    ensures { result ≡ (lock.now.signer == owner_of config.now lock.now.phase) }
{
    lock.signer == config.owner_of(lock.phase)
}

/// Whether the signers ascend strictly, below the number of replicas.
fn do_signers_ascend(config: &Config, reports: &[SignedReport]) -> bool
    ensures { result ≡ ascends_within 0 config.now.replicas (signers_of reports.now) }
{
    let mut mask: u16 = 0;
    for signed in reports {
        let signer = signed.report.signer.number();
        // The signer's bit has to be above all bits of the mask.
        if config.replicas <= signer || mask >> signer != 0 {
            return false;
        }
        mask |= 1 << signer;
    }
    true
}

/// Whether each report is of the lock's height and phase.
fn are_of_its_phase(lock: &Lock, reports: &[SignedReport]) -> bool
    ensures { result ≡ list_all (λ s. (s.report.height == lock.now.height) && (s.report.phase == lock.now.phase)) reports.now }
{
    reports.iter().all(|signed| signed.report.height == lock.height
        && signed.report.phase == lock.phase)
}

/// Whether the lock's proof has exactly N-t reports, of different replicas and of the lock's height and phase.
pub fn is_quorate(config: &Config, lock: &Lock) -> bool
    ensures { result ≡ is_quorate config.now lock.now }
{
    let reports = lock.proof.as_slice();
    reports.len() == usize::from(config.quorum())
        && do_signers_ascend(config, reports)
        && are_of_its_phase(lock, reports)
}

/// Whether each report of the lock's proof finds the lock's value.
pub fn is_supporting(lock: &Lock) -> bool
    ensures { result ≡ is_supporting lock.now }
{
    let value = &lock.value;
    lock.proof
        .as_slice()
        .iter()
        .all(|signed| signed.report.finds(value))
}

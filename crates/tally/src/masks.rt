//! Masks over replicas: bit r stands for replica r.
ghost use Rattle.std.specs.Prelude.{◌≡◌, ◌==◌, ℕ, if◌then◌else◌};
ghost use Rattle.std.specs.Int.{bit_at};
ghost use Rattle.tally.specs.ReportMasks.{with_bit};

use ledger_model::ReplicaId;

/// The mask, with the bit set if it is to be.
pub(crate) fn with_bit(mask: u16, set: bool, bit: u16) -> u16
    ensures { result ≡ with_bit mask set bit }
{
    if set { mask | bit } else { mask }
}

/// The replicas of the mask but this one.
pub fn without(mask: u16, replica: ReplicaId) -> u16
    ensures { (r : ℕ) → bit_at result r ≡ (if r == replica then 0 else bit_at mask r) }
{
    if replica.number() >= 16 {
        return mask;
    }
    mask & !(1 << replica.number())
}

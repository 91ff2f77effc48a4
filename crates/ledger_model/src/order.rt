//! The order of transactions and batches, which is the byte order of their encodings.
ghost use Rattle.std.specs.Prelude.{◌≡◌, refl};
ghost use Rattle.std.specs.Ordering.{as_partial_cmp};
ghost use Rattle.std.specs.Cmp.Lexicographic.{nat_list_eq_equiv};
ghost use Rattle.ledger_model.specs.Order.{tx_cmp, value_cmp};
ghost use Rattle.ledger_model.specs.Spelling.{are_ascending};
ghost use Rattle.ledger_model.specs.OrderLaws.{same_value-equiv, tx_total, tx_ties, tx_partial, value_total, value_ties, value_partial};

use crate::{Batch, Tx};
use std::cmp::Ordering;

impl Eq for Tx {
    ghost laws = { nat_list_eq_equiv };
}

/// The shorter transaction comes first. If both have the same length, the first byte that differs decides.
impl Ord for Tx {
    ghost cmp = { tx_cmp };

    ghost total = { tx_total };

    ghost matches_partial_cmp = { λ x y. refl };

    ghost matches_eq = { tx_ties };

    fn cmp(&self, other: &Tx) -> Ordering {
        let (mine, theirs) = (self.as_bytes(), other.as_bytes());
        mine.len().cmp(&theirs.len()).then_with(|| mine.cmp(theirs))
    }
}

impl PartialOrd for Tx {
    ghost partial_cmp = { as_partial_cmp tx_cmp };

    ghost laws = { tx_partial };

    fn partial_cmp(&self, other: &Tx) -> Option<Ordering> {
        Some(self.cmp(other))
    }
}

impl Eq for Batch {
    ghost laws = { same_value-equiv };
}

/// The batch of fewer transactions comes first. If both have the same number, the first transaction that differs
/// decides. This is the byte order of encodings.
impl Ord for Batch {
    ghost cmp = { value_cmp };

    ghost total = { value_total };

    ghost matches_partial_cmp = { λ v w. refl };

    ghost matches_eq = { value_ties };

    fn cmp(&self, other: &Batch) -> Ordering {
        let (mine, theirs) = (self.transactions(), other.transactions());
        mine.len().cmp(&theirs.len()).then_with(|| mine.cmp(theirs))
    }
}

impl PartialOrd for Batch {
    ghost partial_cmp = { as_partial_cmp value_cmp };

    ghost laws = { value_partial };

    fn partial_cmp(&self, other: &Batch) -> Option<Ordering> {
        Some(self.cmp(other))
    }
}

/// Whether the batches ascend strictly, as the lists in a report must.
pub fn are_ascending(values: &[Batch]) -> bool
    ensures { result ≡ are_ascending values.now }
{
    values.is_sorted_by(|value, next| value < next)
}

//! A count that exists only in contracts.
ghost use Rattle.std.specs.Prelude.{◌≡◌, ℕ, ◌+◌};

use std::marker::Model;

/// The number of times that a stream has failed. A count has no bytes, and its methods do nothing at run time.
#[derive(Drop)]
pub(crate) struct FailureCount {
    pub ghost number: { ℕ },
}

impl Model for FailureCount {
    ghost use Rattle.std.specs.Borrow.{ftrue};

    ghost also_owns = { λ _. ftrue };
}

impl FailureCount {
    /// The count of a stream that has not failed yet.
    pub(crate) fn zero() -> Self
        ensures { result.number ≡ 0 }
    {
        FailureCount {}
    }

    /// The count after one more failure.
    pub(crate) fn plus_one(&self) -> Self
        ensures { result.number ≡ self.now.number + 1 }
    {
        FailureCount {}
    }
}

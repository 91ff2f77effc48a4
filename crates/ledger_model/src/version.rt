//! The versions of statements and of the frames that carry them.

/// The version of a statement. It is a part of the statement: its first byte encodes it, so it is signed. A cluster whose frames
/// have version 2 makes statements of version 2, and reads both; a cluster with frames of version 1 knows version 1 alone.
#[derive(Clone, Copy, Debug, PartialEq, Eq)]
pub enum Version {
    /// Batches of at most 16 transactions, bodies of at most 150,000 bytes.
    One,
    /// Batches of at most 64 transactions, bodies of at most 600,000 bytes.
    Two,
}

impl Version {
    ghost use Rattle.std.specs.Prelude.{◌≡◌};
    ghost use Rattle.ledger_model.specs.Versions.{numbered, reads, batch_limit, body_limit};

    /// The version of this number, which is 1 or 2.
    pub fn from_number(number: u8) -> Option<Version>
        ensures { result ≡ numbered number }
    {
        match number {
            1 => Some(Version::One),
            2 => Some(Version::Two),
            _ => None,
        }
    }

    /// Whether frames of this version may carry a statement of that version, and a lock of this version a report of that version.
    pub fn reads(self, version: Version) -> bool
        ensures { result ≡ reads self version }
    {
        match self {
            Version::One => matches!(version, Version::One),
            Version::Two => true,
        }
    }

    /// The most transactions of a batch: 16 or 64.
    pub fn batch_limit(self) -> usize
        ensures { result ≡ batch_limit self }
    {
        match self {
            Version::One => 16,
            Version::Two => 64,
        }
    }

    /// The most bytes of a frame's body: 150,000 or 600,000.
    pub fn body_limit(self) -> usize
        ensures { result ≡ body_limit self }
    {
        match self {
            Version::One => 150_000,
            Version::Two => 600_000,
        }
    }
}

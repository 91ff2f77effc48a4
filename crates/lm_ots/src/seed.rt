//! The secret seed of a key pair.
use std::marker::Model;

/// The secret that all chains start from, 32 bytes (RFC 8554, Appendix A).
///
/// It can't be copied, compared or printed. Its bytes are not wiped from memory when it is dropped.
#[derive(Drop)]
pub struct Seed {
    bytes: [u8; 32],
}

impl Model for Seed {
    ghost use Rattle.std.specs.Prelude.{List, ℕ};

    ghost Value = { List ℕ };

    ghost view = { λ s. s.bytes };
}

impl Seed {
    ghost use Rattle.std.specs.Prelude.{◌≡◌, length};

    /// The seed of these bytes.
    pub fn new(bytes: [u8; 32]) -> Self
        ensures { result ≡ bytes }
    {
        Seed { bytes }
    }

    /// Its bytes.
    pub fn as_bytes(&self) -> &[u8; 32]
        ensures bytes { result.now ≡ self.now }
        ensures whole { length self.now ≡ 32 }
    {
        &self.bytes
    }
}

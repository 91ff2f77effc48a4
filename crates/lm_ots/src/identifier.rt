//! The identifier of a key pair.
use std::marker::Model;

/// The identifier of a key pair, 16 bytes: `I` of RFC 8554.
#[derive(Clone, Copy, Debug, PartialEq, Eq)]
pub struct Identifier {
    bytes: [u8; 16],
}

impl Model for Identifier {
    ghost use Rattle.std.specs.Prelude.{List, ℕ};

    ghost Value = { List ℕ };

    ghost view = { λ i. i.bytes };

    ghost inverse = { λ bytes. record { bytes = bytes } };
}

impl Identifier {
    ghost use Rattle.std.specs.Prelude.{◌≡◌, length};

    /// The identifier of these bytes.
    pub fn new(bytes: [u8; 16]) -> Self
        ensures { result ≡ bytes }
    {
        Identifier { bytes }
    }

    /// Its bytes.
    pub fn as_bytes(&self) -> &[u8; 16]
        ensures bytes { result.now ≡ self.now }
        ensures whole { length self.now ≡ 16 }
    {
        &self.bytes
    }
}

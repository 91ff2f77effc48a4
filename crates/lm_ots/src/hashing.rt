//! What the hashes of RFC 8554 have in common, and the digest of a message.
ghost use Rattle.std.specs.Prelude.{◌≡◌, ◌++◌, ◌≤◌, length, take};
ghost use Rattle.std.specs.Int.{w16, w32, to_be_bytes, from_be_bytes};
ghost use Rattle.sha2.specs.Hashers.{Holds256};
ghost use Rattle.ledger_model.specs.Signatures.{message_digest};

use crate::Identifier;
use sha2::{Digest, Sha256};

/// Marks the hash of the ends of a leaf's chains (RFC 8554, section 4.3).
pub(crate) const D_PBLC: u16 = 0x8080;

/// Marks the hash of a message (RFC 8554, section 4.5).
const D_MESG: u16 = 0x8181;

/// A hasher that has taken `I || u32(number) || u16(mark)`, with which the messages, keys and nodes of RFC 8554 start.
pub fn hasher_at(identifier: &Identifier, number: u32, mark: u16) -> Sha256
    ensures { Holds256 result (identifier.now ++ to_be_bytes w32 number ++ to_be_bytes w16 mark) }
{
    let mut hasher = Sha256::new();
    hasher.update(identifier.as_bytes());
    hasher.update(number.to_be_bytes());
    hasher.update(mark.to_be_bytes());
    hasher
}

/// The digest that is signed for a message (RFC 8554, section 4.5).
pub(crate) fn message_digest(
    identifier: &Identifier,
    leaf: u32,
    randomizer: &[u8],
    message: &[u8],
) -> [u8; 32]
    ensures { result ≡ message_digest identifier.now leaf randomizer.now message.now }
{
    let mut hasher = hasher_at(identifier, leaf, D_MESG);
    hasher.update(randomizer);
    hasher.update(message);
    hasher.finalize()
}

/// The number that the first 4 bytes encode, big-endian: `strTou32` of RFC 8554 (section 3.1.2).
pub fn read_u32(bytes: &[u8]) -> u32
    requires { 4 ≤ length bytes.now }
    ensures { result ≡ from_be_bytes w32 (take 4 bytes.now) }
{
    u32::from_be_bytes([bytes[0], bytes[1], bytes[2], bytes[3]])
}

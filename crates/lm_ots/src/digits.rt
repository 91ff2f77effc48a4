//! The digits of a digest and of its checksum.
ghost use Rattle.std.specs.Prelude.{◌≡◌, ◌<◌, ◌++◌, ◌*◌, ◌/◌, length};
ghost use Rattle.std.specs.Int.{w16, to_be_bytes};
ghost use Rattle.ledger_model.specs.Signatures.{coef, checksum};
ghost use Rattle.lm_ots.specs.Parameters.{numbers_of, chains_of, bits_of};

use crate::{Params, Width};

/// The digits that are signed: those of a digest, followed by those of its checksum (RFC 8554, section 4.4).
#[derive(Drop)]
pub(crate) struct Digits {
    params: Params,
    bytes: [u8; 34],
}

impl Digits {
    /// The digits of a digest.
    pub(crate) fn of(params: Params, digest: &[u8; 32]) -> Self
        ensures params { result.params ≡ params }
        ensures bytes { result.bytes
            ≡ digest.now ++ to_be_bytes w16 (checksum (numbers_of params) digest.now) }
    {
        let mut bytes = [0; 34];
        bytes[..32].copy_from_slice(digest);
        bytes[32..].copy_from_slice(&checksum(params, digest).to_be_bytes());
        Digits { params, bytes }
    }

    /// The digit that chain `index` signs.
    pub(crate) fn at(&self, index: u16) -> u8
        requires { index < chains_of self.now.params.width }
        ensures { result ≡ coef self.now.bytes index (bits_of self.now.params.width) }
    {
        coefficient(&self.bytes, usize::from(index), self.params.width)
    }
}

/// The digit `index` of `bytes` (RFC 8554, section 3.1.3).
fn coefficient(bytes: &[u8], index: usize, width: Width) -> u8
    requires { index * bits_of width / 8 < length bytes.now }
    ensures { result ≡ coef bytes.now index (bits_of width) }
{
    match width {
        Width::W4 if index % 2 == 0 => bytes[index / 2] >> 4,
        Width::W4 => bytes[index / 2] & 0x0f,
        Width::W8 => bytes[index],
    }
}

/// The checksum of a digest (RFC 8554, section 4.4).
fn checksum(params: Params, digest: &[u8; 32]) -> u16
    ensures { result ≡ checksum (numbers_of params) digest.now }
{
    let width = params.width;
    let mut sum = 0;
    for index in 0..width.digest_digits() {
        sum += u16::from(width.last_step() - coefficient(digest, index, width));
    }
    sum << width.checksum_shift()
}

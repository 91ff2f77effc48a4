//! The parameter sets: W4 or W8 with H5 or H10.

/// The width of a digit: the number of bits of a digest that one chain signs.
#[derive(Clone, Copy, Debug, PartialEq, Eq)]
pub enum Width {
    /// 4 bits: `LMOTS_SHA256_N32_W4`.
    W4,
    /// 8 bits: `LMOTS_SHA256_N32_W8`.
    W8,
}

/// The height of the tree over the leaves.
#[derive(Clone, Copy, Debug, PartialEq, Eq)]
pub enum TreeHeight {
    /// 32 leaves: `LMS_SHA256_M32_H5`.
    H5,
    /// 1024 leaves: `LMS_SHA256_M32_H10`.
    H10,
}

/// A parameter set of RFC 8554 (sections 4.1 and 5.1).
#[derive(Clone, Copy, Debug, PartialEq, Eq)]
pub struct Params {
    /// The width of a digit.
    pub width: Width,
    /// The height of the tree.
    pub height: TreeHeight,
}

impl Width {
    ghost use Rattle.std.specs.Prelude.{◌≡◌, ◌-◌, ◌/◌, ◌^◌};
    ghost use Rattle.lm_ots.specs.Parameters.{bits_of, chains_of, shift_of, ots_code_of};

    /// The width in bits.
    pub const fn bits(self) -> u8
        ensures { result ≡ bits_of self }
    {
        match self {
            Width::W4 => 4,
            Width::W8 => 8,
        }
    }

    /// The number of chains, one for each digit of a digest and of its checksum.
    pub const fn chains(self) -> u16
        ensures { result ≡ chains_of self }
    {
        match self {
            Width::W4 => 67,
            Width::W8 => 34,
        }
    }

    /// The number of bits by which the checksum is shifted left.
    pub const fn checksum_shift(self) -> u8
        ensures { result ≡ shift_of self }
    {
        match self {
            Width::W4 => 4,
            Width::W8 => 0,
        }
    }

    /// The number of steps of a whole chain, which is the greatest digit.
    pub const fn last_step(self) -> u8
        ensures { result ≡ 2 ^ bits_of self - 1 }
    {
        match self {
            Width::W4 => 15,
            Width::W8 => 255,
        }
    }

    /// The number of digits of a digest of 32 bytes.
    pub const fn digest_digits(self) -> usize
        ensures { result ≡ 256 / bits_of self }
    {
        match self {
            Width::W4 => 64,
            Width::W8 => 32,
        }
    }

    /// The type code of LM-OTS (RFC 8554, section 4.1).
    pub const fn code(self) -> u32
        ensures { result ≡ ots_code_of self }
    {
        match self {
            Width::W4 => 3,
            Width::W8 => 4,
        }
    }
}

impl TreeHeight {
    ghost use Rattle.std.specs.Prelude.{◌≡◌, ◌^◌};
    ghost use Rattle.lm_ots.specs.Parameters.{levels_of, lms_code_of};

    /// The number of levels above the leaves.
    pub const fn levels(self) -> u8
        ensures { result ≡ levels_of self }
    {
        match self {
            TreeHeight::H5 => 5,
            TreeHeight::H10 => 10,
        }
    }

    /// The number of leaves.
    pub const fn leaves(self) -> u32
        ensures { result ≡ 2 ^ levels_of self }
    {
        match self {
            TreeHeight::H5 => 32,
            TreeHeight::H10 => 1024,
        }
    }

    /// The type code of LMS (RFC 8554, section 5.1).
    pub const fn code(self) -> u32
        ensures { result ≡ lms_code_of self }
    {
        match self {
            TreeHeight::H5 => 5,
            TreeHeight::H10 => 6,
        }
    }
}

impl Params {
    ghost use Rattle.std.specs.Prelude.{◌≡◌, ◌^◌};
    ghost use Rattle.std.specs.Option.{option_map};
    ghost use Rattle.ledger_model.specs.Signatures.{params_of, ots_len, signature_len};
    ghost use Rattle.lm_ots.specs.Parameters.{numbers_of};

    /// The parameter set with these type codes of LMS and LM-OTS, if it is one of the four.
    pub fn from_codes(lms_code: u32, ots_code: u32) -> Option<Self>
        ensures { option_map numbers_of result ≡ params_of lms_code ots_code }
    {
        let height = match lms_code {
            5 => TreeHeight::H5,
            6 => TreeHeight::H10,
            _ => return None,
        };
        let width = match ots_code {
            3 => Width::W4,
            4 => Width::W8,
            _ => return None,
        };
        Some(Params { width, height })
    }

    /// The length of a one-time signature in bytes (RFC 8554, section 4.5).
    pub fn ots_len(self) -> usize
        ensures { result ≡ ots_len (numbers_of self) }
    {
        4 + 32 * (usize::from(self.width.chains()) + 1)
    }

    /// The length of a signature of the whole tree in bytes (RFC 8554, section 5.4).
    pub fn signature_len(self) -> usize
        ensures { result ≡ signature_len (numbers_of self) }
    {
        8 + self.ots_len() + 32 * usize::from(self.height.levels())
    }

    /// The number of leaves, each of which signs one message.
    pub fn leaves(self) -> u32
        ensures { result ≡ 2 ^ (numbers_of self).height }
    {
        self.height.leaves()
    }
}

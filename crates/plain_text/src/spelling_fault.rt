//! Why a text encodes no transaction.
ghost use Rattle.std.specs.Prelude.{◌≡◌};
ghost use Rattle.plain_text.specs.declared.spelling_fault.SpellingFault.TheVariants.{NoMemory};

use std::alloc::{AllocError, AllocFailed};
use std::error::Error;
use std::fmt;

/// Why a text encodes no transaction; if there are several faults, the first.
#[derive(Clone, Copy, Debug, PartialEq, Eq)]
pub enum SpellingFault {
    /// This byte is not escaped, but must be.
    Bare(u8),
    /// This byte is escaped, but must not be.
    NeedlessEscape(u8),
    /// A backslash is not followed by two lower-case hexadecimal digits.
    BadEscape,
    /// Memory ran out.
    NoMemory,
}

impl fmt::Display for SpellingFault {
    fn fmt<W: fmt::Write>(&self, f: &mut fmt::Formatter<W>) -> fmt::Result {
        match self {
            SpellingFault::Bare(b' ') => write!(f, "has a space: write it \\20"),
            SpellingFault::Bare(byte) if byte.is_ascii_graphic() => {
                let bare = char::from(*byte);
                write!(f, "has '{bare}': write it \\{byte:02x}")
            }
            SpellingFault::Bare(byte) => write!(
                f,
                "has the byte {byte:02x}: write it \\{byte:02x}"
            ),
            SpellingFault::NeedlessEscape(byte) => {
                let bare = char::from(*byte);
                write!(f, "has \\{byte:02x}: write it {bare}")
            }
            SpellingFault::BadEscape => write!(
                f,
                "has '\\' without two lower-case hexadecimal digits behind it"
            ),
            SpellingFault::NoMemory => write!(f, "out of memory"),
        }
    }
}

impl Error for SpellingFault {}

impl From<AllocError> for SpellingFault {
    ghost from_gives = { λ _ e. e ≡ NoMemory };

    fn from(_error: AllocError) -> SpellingFault {
        SpellingFault::NoMemory
    }
}

impl<T: Drop> From<AllocFailed<T>> for SpellingFault {
    ghost from_gives = { λ _ e. e ≡ NoMemory };

    fn from(_error: AllocFailed<T>) -> SpellingFault {
        SpellingFault::NoMemory
    }
}

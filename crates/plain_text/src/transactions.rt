//! Transactions in their printed form: byte by byte, plain or escaped, and each byte in only one way.
ghost use Rattle.std.specs.Prelude.{◌≡◌, ◌⊎◌, ℕ, List, ◌<◌, IfSome, IfOk, IfErr, option_map};
ghost use Rattle.plain_text.specs.Transactions.{is_plain, nibble, first_spelled_byte, spelling_fault_at, Misspells, StandsFor};
ghost use Rattle.plain_text.specs.declared.spelling_fault.SpellingFault.TheVariants.{NoMemory};

use crate::spelling_fault::SpellingFault;
use std::alloc::Global;

/// Whether the byte stands for itself: it is visible, and no comma, bracket or backslash.
pub(crate) fn is_plain(byte: u8) -> bool
    ensures { result ≡ is_plain byte }
{
    (0x21..=0x7e).contains(&byte) && !matches!(byte, b',' | b'[' | b'\\' | b']')
}

/// The value of a lower-case hexadecimal digit.
fn nibble(byte: u8) -> Option<u8>
    ensures value { result ≡ nibble byte }
    ensures small { IfSome result (λ n. n < 16) }
{
    match byte {
        b'0'..=b'9' => Some(byte - b'0'),
        b'a'..=b'f' => Some(byte - b'a' + 10),
        _ => None,
    }
}

/// The byte at the start of the text, plain or as a backslash with two digits, and the text after it.
fn first_byte(text: &[u8]) -> Option<(u8, &[u8])>
    ensures { option_map (λ x. (x.0, x.1.now)) result ≡ first_spelled_byte text.now }
{
    match text {
        [] => None,
        [b'\\', high, low, rest @ ..] => {
            let high = nibble(*high)?;
            let low = nibble(*low)?;
            let byte = 16 * high + low;
            if is_plain(byte) {
                return None;
            }
            Some((byte, rest))
        }
        [byte, rest @ ..] if is_plain(*byte) => Some((*byte, rest)),
        _ => None,
    }
}

/// What is wrong at the start of a text that starts with no byte.
fn fault_at(text: &[u8]) -> SpellingFault
    ensures { result ≡ spelling_fault_at text.now }
{
    match text {
        [b'\\', high, low, ..] => match (nibble(*high), nibble(*low)) {
            (Some(high), Some(low)) => SpellingFault::NeedlessEscape(16 * high + low),
            _ => SpellingFault::BadEscape,
        },
        [b'\\', ..] | [] => SpellingFault::BadEscape,
        [byte, ..] => SpellingFault::Bare(*byte),
    }
}

/// The bytes that the text encodes, if it is in the printed form of transactions.
pub fn written(alloc: Global, text: &str) -> Result<Vec<u8>, SpellingFault>
    ensures some { IfOk result (λ bytes. StandsFor text.now bytes.items) }
    ensures told { IfErr result (λ fault. (fault ≡ NoMemory) ⊎ Misspells text.now fault) }
    ensures none { IfErr result (λ fault. (bytes : List ℕ) → StandsFor text.now bytes → fault ≡ NoMemory) }
{
    let mut bytes = Vec::new(alloc);
    let mut rest = text.as_bytes();
    while !rest.is_empty() {
        let Some((byte, after)) = first_byte(rest) else {
            return Err(fault_at(rest));
        };
        bytes.push(byte)?;
        rest = after;
    }
    Ok(bytes)
}

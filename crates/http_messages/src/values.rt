//! Reads the value of a parameter: bytes in quotes or in hexadecimal digits, or a number.
ghost use Rattle.std.specs.Prelude.{◌≡◌, ◌≤◌, length, IfOk, IsTrue, map, option_map};
ghost use Rattle.std.specs.List.{list_all};
ghost use Rattle.form_urlencoded.specs.Form.{plus_to_space, decode};
ghost use Rattle.http_messages.specs.Values.{is_bare, quoted_of, hexadecimal_of, has_hex_prefix, byte_string_of, decimal_number, written_number_of};

use hex::FromHexError;
use percent_encoding::percent_decode;
use std::alloc::{AllocError, Global};

/// The bytes with a space for each `+`.
fn with_spaces(alloc: Global, encoded: &[u8]) -> Result<Vec<u8>, AllocError>
    ensures { IfOk result (λ bytes. bytes.items ≡ map plus_to_space encoded.now) }
{
    encoded
        .iter()
        .map(|&byte| if byte == b'+' { b' ' } else { byte })
        .collect(alloc)
}

/// The bytes that an encoded value stands for: a `+` is a space, and `%` with two hexadecimal digits is a byte.
pub(crate) fn decoded(alloc: Global, encoded: &[u8]) -> Result<Vec<u8>, AllocError>
    ensures { IfOk result (λ bytes. bytes.items ≡ decode encoded.now) }
{
    let spaced = with_spaces(alloc, encoded)?;
    let mut bytes = Vec::new(alloc);
    percent_decode(&spaced).append_to(&mut bytes)?;
    Ok(bytes)
}

/// Whether the byte may be between quotes: it is neither a quote nor a backslash.
fn is_bare(byte: u8) -> bool
    ensures { result ≡ is_bare byte }
{
    byte != b'"' && byte != b'\\'
}

fn are_bare(bytes: &[u8]) -> bool
    ensures { result ≡ list_all is_bare bytes.now }
{
    bytes.iter().all(|byte| is_bare(*byte))
}

/// What is between the quotes, if the text is quoted.
#[tactic(auto, unfolding(crate::specs::Values::quoted_of))]
fn quoted(text: &[u8]) -> Option<&[u8]>
    ensures { option_map (λ inner. inner.now) result ≡ quoted_of text.now }
{
    match text {
        [b'"', inner @ .., b'"'] if are_bare(inner) => Some(inner),
        _ => None,
    }
}

/// The bytes that hexadecimal digits of either case encode.
fn hex_bytes(alloc: Global, digits: &[u8]) -> Result<Option<Vec<u8>>, AllocError>
    ensures { IfOk result (λ found. option_map (λ bytes. bytes.items) found ≡ hexadecimal_of digits.now) }
{
    match hex::decode(alloc, digits) {
        Ok(bytes) => Ok(Some(bytes)),
        Err(FromHexError::OutOfMemory) => Err(AllocError),
        Err(_) => Ok(None),
    }
}

/// The bytes between the quotes, if the text is quoted.
fn quoted_bytes(alloc: Global, text: &[u8]) -> Result<Option<Vec<u8>>, AllocError>
    ensures { IfOk result (λ found. option_map (λ bytes. bytes.items) found ≡ quoted_of text.now) }
{
    match quoted(text) {
        Some(inner) => Ok(Some(inner.to_vec(alloc)?)),
        None => Ok(None),
    }
}

/// Whether the text starts with `0x` or `0X`.
fn has_hex_prefix(text: &[u8]) -> bool
    ensures is { result ≡ has_hex_prefix text.now }
    ensures long { IsTrue result → 2 ≤ length text.now }
{
    matches!(text, [b'0', b'x' | b'X', ..])
}

/// The bytes that the text is: those of the hexadecimal digits after `0x` or `0X`, or those between quotes.
#[tactic(auto, unfolding(crate::specs::Values::byte_string_of))]
pub(crate) fn byte_string(alloc: Global, text: &[u8]) -> Result<Option<Vec<u8>>, AllocError>
    ensures { IfOk result (λ found. option_map (λ bytes. bytes.items) found ≡ byte_string_of text.now) }
{
    if has_hex_prefix(text) {
        hex_bytes(alloc, &text[2..])
    } else {
        quoted_bytes(alloc, text)
    }
}

/// The number below 2^32 that the decimal digits are.
fn number(digits: &[u8]) -> Option<u32>
    ensures { result ≡ decimal_number digits.now }
{
    match str::from_utf8(digits) {
        Ok(digits) => plain_text::decimal(digits),
        Err(_) => None,
    }
}

/// The number below 2^32 that the text is, in quotes or without.
#[tactic(auto, unfolding(crate::specs::Values::written_number_of))]
pub(crate) fn written_number(text: &[u8]) -> Option<u32>
    ensures { result ≡ written_number_of text.now }
{
    number(quoted(text).unwrap_or(text))
}

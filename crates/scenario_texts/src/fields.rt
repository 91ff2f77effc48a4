//! Reads the words of a line that follow its keyword: numbers, bytes, and where a lie goes.
ghost use Rattle.std.specs.Prelude.{◌≡◌, ◌≤◌, map, option_map, IfOk, IfSome, codes};
ghost use Rattle.std.specs.Char.{is_ascii_uppercase};
ghost use Rattle.std.specs.List.{list_any};
ghost use Rattle.scenario_texts.specs.Reading.{word_number, positive_of, one_number, two_numbers, three_numbers, word_bytes, hex_of, optional_bytes, optional_hex, towards_of};

use crate::command::Towards;
use hex::FromHexError;
use plain_text::{SpellingFault, written};
use std::alloc::{AllocError, Global};

/// The number that the word encodes.
pub(crate) fn number(word: &str) -> Option<u32>
    ensures { result ≡ word_number word.now }
{
    plain_text::number(word)
}

/// The number, at least 1, that the word encodes.
#[tactic(auto, unfolding(crate::specs::Reading::positive_of))]
pub(crate) fn positive(word: &str) -> Option<u32>
    ensures spelled { result ≡ positive_of word.now }
    ensures some { IfSome result (λ number. 1 ≤ number) }
{
    let number = number(word)?;
    if number == 0 { None } else { Some(number) }
}

/// The number in the only field.
#[tactic(auto, unfolding(crate::specs::Reading::one_number))]
pub(crate) fn one_number(fields: &[&str]) -> Option<u32>
    ensures { result ≡ one_number (map (λ field. field.now) fields.now) }
{
    let [first] = fields else {
        return None;
    };
    number(first)
}

/// The two numbers in the two fields.
#[tactic(auto, unfolding(crate::specs::Reading::two_numbers))]
pub(crate) fn two_numbers(fields: &[&str]) -> Option<(u32, u32)>
    ensures { result ≡ two_numbers (map (λ field. field.now) fields.now) }
{
    let [first, second] = fields else {
        return None;
    };
    Some((number(first)?, number(second)?))
}

/// The three numbers in the three fields.
#[tactic(auto, unfolding(crate::specs::Reading::three_numbers))]
pub(crate) fn three_numbers(fields: &[&str]) -> Option<(u32, u32, u32)>
    ensures { result ≡ three_numbers (map (λ field. field.now) fields.now) }
{
    let [first, second, third] = fields else {
        return None;
    };
    Some((number(first)?, number(second)?, number(third)?))
}

/// The bytes that the word encodes.
pub(crate) fn bytes(alloc: Global, word: &str) -> Result<Option<Vec<u8>>, AllocError>
    ensures { IfOk result (λ found. option_map (λ bytes. bytes.items) found ≡ word_bytes word.now) }
{
    match written(alloc, word) {
        Ok(bytes) => Ok(Some(bytes)),
        Err(fault) => match fault {
            SpellingFault::NoMemory => Err(AllocError),
            _ => Ok(None),
        },
    }
}

/// Whether the bytes contain a capital letter.
fn has_capitals(word: &[u8]) -> bool
    ensures { result ≡ list_any is_ascii_uppercase word.now }
{
    word.iter().any(|byte| byte.is_ascii_uppercase())
}

/// The bytes that the word encodes in lower-case hexadecimal digits.
#[tactic(auto, unfolding(crate::specs::Reading::hex_of))]
fn hex_bytes(alloc: Global, word: &str) -> Result<Option<Vec<u8>>, AllocError>
    ensures { IfOk result (λ found. option_map (λ bytes. bytes.items) found ≡ hex_of word.now) }
{
    if has_capitals(word.as_bytes()) {
        return Ok(None);
    }
    match hex::decode(alloc, word) {
        Ok(bytes) => Ok(Some(bytes)),
        Err(FromHexError::OutOfMemory) => Err(AllocError),
        Err(_) => Ok(None),
    }
}

/// The bytes that the only field encodes; no bytes if the field is missing.
#[tactic(auto, unfolding(crate::specs::Reading::optional_bytes))]
pub(crate) fn optional_bytes(alloc: Global, fields: &[&str]) -> Result<Option<Vec<u8>>, AllocError>
    ensures { IfOk result (λ found. option_map (λ bytes. bytes.items) found ≡ optional_bytes (map (λ field. field.now) fields.now)) }
{
    match fields {
        [] => Ok(Some(Vec::new(alloc))),
        [word] if !word.is_empty() => bytes(alloc, word),
        _ => Ok(None),
    }
}

/// The bytes that the only field encodes in hexadecimal digits; no bytes if the field is missing.
#[tactic(auto, unfolding(crate::specs::Reading::optional_hex))]
pub(crate) fn optional_hex(alloc: Global, fields: &[&str]) -> Result<Option<Vec<u8>>, AllocError>
    ensures { IfOk result (λ found. option_map (λ bytes. bytes.items) found ≡ optional_hex (map (λ field. field.now) fields.now)) }
{
    match fields {
        [] => Ok(Some(Vec::new(alloc))),
        [word] if !word.is_empty() => hex_bytes(alloc, word),
        _ => Ok(None),
    }
}

/// Where a lie goes: to the replica with a number, or to `all`.
#[tactic(auto, unfolding(crate::specs::Reading::towards_of))]
pub(crate) fn towards(word: &str) -> Option<Towards>
    ensures { result ≡ towards_of word.now }
{
    match word {
        "all" => Some(Towards::All),
        _ => Some(Towards::One(number(word)?)),
    }
}

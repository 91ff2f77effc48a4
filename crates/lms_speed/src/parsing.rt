//! Parses a line of the protocol: words separated by single spaces.

use crate::request::{KeyPair, Operation, RateRequest, Request, SignRequest, VerifyRequest};
use hex::{FromHex, FromHexError};
use lm_ots::{Identifier, Params, Seed, TreeHeight, Width};
use plain_text::decimal;
use std::alloc::{AllocError, Global};

/// Why a line gave no request.
#[derive(Clone, Copy)]
pub enum LineFault {
    /// The line is no request.
    Unspelled,
    NoMemory,
}

impl From<AllocError> for LineFault {
    fn from(_error: AllocError) -> LineFault {
        LineFault::NoMemory
    }
}

impl From<FromHexError> for LineFault {
    fn from(error: FromHexError) -> LineFault {
        match error {
            FromHexError::OutOfMemory => LineFault::NoMemory,
            _ => LineFault::Unspelled,
        }
    }
}

/// The parameter set of a width and a height of the tree.
fn params(width: &str, height: &str) -> Option<Params> {
    let width = match width {
        "4" => Width::W4,
        "8" => Width::W8,
        _ => return None,
    };
    let height = match height {
        "5" => TreeHeight::H5,
        "10" => TreeHeight::H10,
        _ => return None,
    };
    Some(Params { width, height })
}

/// The key pair of a parameter set, an identifier and a seed.
fn key_pair(width: &str, height: &str, identifier: &str, seed: &str) -> Option<KeyPair> {
    let params = params(width, height)?;
    let identifier = <[u8; 16] as FromHex>::from_hex(identifier).ok()?;
    let seed = <[u8; 32] as FromHex>::from_hex(seed).ok()?;
    Some(KeyPair {
        params,
        identifier: Identifier::new(identifier),
        seed: Seed::new(seed),
    })
}

/// The bytes that a word encodes in hexadecimal digits; `-` encodes no bytes.
fn bytes(alloc: Global, word: &str) -> Result<Vec<u8>, LineFault> {
    match word {
        "" => Err(LineFault::Unspelled),
        "-" => Ok(Vec::new(alloc)),
        _ => Ok(hex::decode(alloc, word)?),
    }
}

/// The operation of this name.
fn operation(name: &str) -> Option<Operation> {
    match name {
        "verify" => Some(Operation::Verification),
        "sign" => Some(Operation::Signature),
        "keygen" => Some(Operation::KeyGeneration),
        _ => None,
    }
}

/// The request that the operands of `public` encode.
fn public_request(operands: &[&str]) -> Option<KeyPair> {
    let [width, height, identifier, seed] = operands else {
        return None;
    };
    key_pair(width, height, identifier, seed)
}

/// The request that the operands of `sign` encode, if the tree has the leaf.
fn sign_request(alloc: Global, operands: &[&str]) -> Result<SignRequest, LineFault> {
    let [width, height, identifier, seed, leaf, message] = operands else {
        return Err(LineFault::Unspelled);
    };
    let Some(leaf) = decimal(leaf) else {
        return Err(LineFault::Unspelled);
    };
    let Some(pair) = key_pair(width, height, identifier, seed) else {
        return Err(LineFault::Unspelled);
    };
    if leaf >= pair.params.leaves() {
        return Err(LineFault::Unspelled);
    }
    Ok(SignRequest {
        pair,
        leaf,
        message: bytes(alloc, message)?,
    })
}

/// The request that the operands of `verify` encode.
fn verify_request(alloc: Global, operands: &[&str]) -> Result<VerifyRequest, LineFault> {
    let [key, message, signature] = operands else {
        return Err(LineFault::Unspelled);
    };
    Ok(VerifyRequest {
        key: bytes(alloc, key)?,
        message: bytes(alloc, message)?,
        signature: bytes(alloc, signature)?,
    })
}

/// The milliseconds of a number of seconds with up to three digits after the point; a greater number gives the greatest one.
fn milliseconds(text: &str) -> Option<u32> {
    let (whole, fraction) = text.split_once('.').unwrap_or((text, "0"));
    let unit = match fraction.len() {
        1 => 100,
        2 => 10,
        3 => 1,
        _ => return None,
    };
    let whole = decimal(whole)?.saturating_mul(1000);
    Some(whole.saturating_add(decimal(fraction)?.saturating_mul(unit)))
}

/// The request that the operands of `rate` encode: a time from 0.001 to 60 seconds.
fn rate_request(operands: &[&str]) -> Option<RateRequest> {
    let [name, width, height, seconds] = operands else {
        return None;
    };
    let operation = operation(name)?;
    let params = params(width, height)?;
    let milliseconds = milliseconds(seconds)?;
    if milliseconds < 1 || 60_000 < milliseconds {
        return None;
    }
    Some(RateRequest {
        operation,
        params,
        milliseconds,
    })
}

/// The request that the words of a line encode.
fn request(alloc: Global, words: &[&str]) -> Result<Request, LineFault> {
    let Some((name, operands)) = words.split_first() else {
        return Err(LineFault::Unspelled);
    };
    match *name {
        "public" => public_request(operands)
            .map(Request::Public)
            .ok_or(LineFault::Unspelled),
        "sign" => sign_request(alloc, operands).map(Request::Sign),
        "verify" => verify_request(alloc, operands).map(Request::Verify),
        "rate" => rate_request(operands)
            .map(Request::Rate)
            .ok_or(LineFault::Unspelled),
        _ => Err(LineFault::Unspelled),
    }
}

/// The request that a line encodes, given without its line feed. A line that is no text encodes none.
pub fn parse(alloc: Global, line: &[u8]) -> Result<Request, LineFault> {
    let Ok(text) = str::from_utf8(line) else {
        return Err(LineFault::Unspelled);
    };
    let words: Vec<&str> = text.split(' ').collect(alloc)?;
    request(alloc, &words)
}

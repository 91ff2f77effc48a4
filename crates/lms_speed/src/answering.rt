//! Answers requests.
ghost use Rattle.std.specs.Prelude.{◌≡◌, IfOk, codes, string_bytes, if◌then◌else◌};
ghost use Rattle.hex.specs.Hex.{encode_lower};
ghost use Rattle.ledger_model.specs.Signatures.{public_key, signature_of, verifies};
ghost use Rattle.lm_ots.specs.Parameters.{numbers_of};
ghost use Rattle.lms_speed.specs.Requests.{IsAnswerTo};

use crate::parsing::{LineFault, parse};
use crate::rates::rate_text;
use crate::request::{KeyPair, Request, SignRequest, VerifyRequest};
use lms_tree::{PublicKey, Tree, verify};
use std::alloc::{AllocError, Global};
use std::io::{self, ErrorKind};
use std::time::Clock;

/// The answer to a line that requests nothing.
const BAD: &str = "bad";

/// The public key of a key pair, 56 bytes in hexadecimal digits (RFC 8554, section 5.3).
pub fn public_text(alloc: Global, pair: KeyPair) -> Result<String, AllocError>
    ensures { IfOk result (λ text. string_bytes text
        ≡ encode_lower (public_key (numbers_of pair.params) pair.identifier pair.seed)) }
{
    let tree = Tree::build(alloc, pair.params, pair.identifier, pair.seed)?;
    let key = tree.public();
    hex::encode(alloc, key.as_bytes().as_slice())
}

/// The signature of a message with a leaf of a key pair, in hexadecimal digits (RFC 8554, section 5.4).
pub fn signature_text(alloc: Global, request: SignRequest) -> Result<String, AllocError>
    ensures { IfOk result (λ text. string_bytes text
        ≡ encode_lower (signature_of (numbers_of request.pair.params) request.pair.identifier
        request.pair.seed request.leaf request.message.items)) }
{
    let SignRequest {
        pair,
        leaf,
        message,
    } = request;
    let tree = Tree::build(alloc, pair.params, pair.identifier, pair.seed)?;
    let signature = tree.sign(alloc, leaf, &message)?;
    hex::encode(alloc, signature.as_slice())
}

/// Whether the signature is valid for the message under the public key. Bytes that are no public key of the four
/// parameter sets verify nothing.
fn is_verified(key: &[u8], message: &[u8], signature: &[u8]) -> bool
    ensures { result ≡ verifies key.now message.now signature.now }
{
    match PublicKey::from_bytes(key) {
        Ok(key) => verify(&key, message, signature),
        Err(_) => false,
    }
}

/// `true` if the signature verifies (RFC 8554, section 5.4.2), else `false`.
pub fn verdict_text(request: &VerifyRequest) -> &'static str
    ensures { result.now ≡ (if verifies request.now.key.items request.now.message.items request.now.signature.items
        then codes "true" else codes "false") }
{
    if is_verified(&request.key, &request.message, &request.signature) {
        "true"
    } else {
        "false"
    }
}

/// The answer to a request.
fn reply<C: Clock>(clock: &C, alloc: Global, request: Request) -> io::Result<String>
    ensures { IfOk result (λ text. IsAnswerTo request (string_bytes text)) }
{
    match request {
        Request::Public(pair) => Ok(public_text(alloc, pair)?),
        Request::Sign(request) => Ok(signature_text(alloc, request)?),
        Request::Verify(request) => Ok(String::from_str(alloc, verdict_text(&request))?),
        Request::Rate(request) => rate_text(clock, alloc, &request),
    }
}

/// The answer to a line, without its line feed: the answer to its request, or `bad` if it requests nothing.
pub fn answer<C: Clock>(clock: &C, alloc: Global, line: &[u8]) -> io::Result<String> {
    match parse(alloc, line) {
        Ok(request) => reply(clock, alloc, request),
        Err(LineFault::Unspelled) => Ok(String::from_str(alloc, BAD)?),
        Err(LineFault::NoMemory) => Err(io::Error::from(ErrorKind::OutOfMemory)),
    }
}

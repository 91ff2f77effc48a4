//! The requests of the protocol.
ghost use Rattle.std.specs.Prelude.{◌<◌, ◌≤◌, ◌^◌};
ghost use Rattle.lm_ots.specs.Parameters.{levels_of};

use lm_ots::{Identifier, Params, Seed};

/// The parts of a key pair.
#[derive(Drop)]
pub struct KeyPair {
    pub params: Params,
    pub identifier: Identifier,
    pub seed: Seed,
}

/// A message to be signed with a leaf of a key pair.
#[derive(Drop)]
pub struct SignRequest {
    pub pair: KeyPair,
    pub leaf: u32,
    pub message: Vec<u8>,
    ghost in_tree: { leaf < 2 ^ levels_of pair.params.height },
}

/// A signature to be verified under a public key, each as bytes.
#[derive(Drop)]
pub struct VerifyRequest {
    pub key: Vec<u8>,
    pub message: Vec<u8>,
    pub signature: Vec<u8>,
}

/// The operation that is measured.
#[derive(Clone, Copy)]
pub enum Operation {
    Verification,
    Signature,
    KeyGeneration,
}

impl Operation {
    /// Its name in the table.
    pub fn name(self) -> &'static str {
        match self {
            Operation::Verification => "verification",
            Operation::Signature => "signature",
            Operation::KeyGeneration => "key generation",
        }
    }
}

/// A measurement that lasts 1 to 60,000 milliseconds.
#[derive(Drop)]
pub struct RateRequest {
    pub operation: Operation,
    pub params: Params,
    pub milliseconds: u32,
    ghost some: { 1 ≤ milliseconds },
    ghost few: { milliseconds ≤ 60000 },
}

/// The request of a line.
#[derive(Drop)]
pub enum Request {
    Public(KeyPair),
    Sign(SignRequest),
    Verify(VerifyRequest),
    Rate(RateRequest),
}

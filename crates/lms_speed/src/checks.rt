//! Checks a few operations through public calls.
use crate::wrong::{self, ensure};
use key_ring::{SignFault, Signer};
use lm_ots::{Identifier, Params, Seed, TreeHeight, Width, candidate, public_hash};
use lms_tree::{PublicKey, Tree, verify};
use std::alloc::Global;
use std::io::{self, ErrorKind};

/// The identifier of test case 2 of RFC 8554, Appendix F, at height 5.
const IDENTIFIER: [u8; 16] = [
    0x21, 0x5f, 0x83, 0xb7, 0xcc, 0xb9, 0xac, 0xbc, 0xd0, 0x8d, 0xb9, 0x7b, 0x0d, 0x04, 0xdc, 0x2b,
];

/// The seed of that test case.
const SEED: [u8; 32] = [
    0xa1, 0xc4, 0x69, 0x6e, 0x26, 0x08, 0x03, 0x5a, 0x88, 0x61, 0x00, 0xd0, 0x5c, 0xd9, 0x99, 0x45,
    0xeb, 0x33, 0x70, 0x73, 0x18, 0x84, 0xa8, 0x23, 0x5e, 0x2f, 0xb3, 0xd4, 0xd7, 0x1f, 0x25, 0x47,
];

/// The root of that test case, at width 8.
const ROOT: [u8; 32] = [
    0xa1, 0xcd, 0x03, 0x58, 0x33, 0xe0, 0xe9, 0x00, 0x59, 0x60, 0x3f, 0x26, 0xe0, 0x7a, 0xd2, 0xaa,
    0xd1, 0x52, 0x33, 0x8e, 0x7a, 0x5e, 0x59, 0x84, 0xbc, 0xd5, 0xf7, 0xbb, 0x4e, 0xba, 0x40, 0xb7,
];

const MESSAGE: &[u8] = b"The powers not delegated";

const OTHER_MESSAGE: &[u8] = b"The powers delegated";

/// Checks two verifications of a signature.
fn check_signature(key: &PublicKey, signature: &[u8]) -> io::Result<()> {
    ensure(verify(key, MESSAGE, signature), wrong::REFUSED)?;
    ensure(!verify(key, OTHER_MESSAGE, signature), wrong::FORGED)
}

/// Checks a signature and two verifications of a key pair.
fn check_signer(alloc: Global, signer: &mut Signer) -> io::Result<()> {
    match signer.sign(alloc, MESSAGE) {
        Ok(signature) => check_signature(&signer.public(), &signature),
        Err(SignFault::NoMemory) => Err(io::Error::from(ErrorKind::OutOfMemory)),
        Err(SignFault::Exhausted) => Err(io::Error::other(wrong::EXHAUSTED)),
    }
}

/// Checks a key generation, a signature and two verifications of a parameter set.
fn check_params(alloc: Global, params: Params) -> io::Result<()> {
    let identifier = Identifier::new(IDENTIFIER);
    let mut signer = Signer::new(alloc, params, identifier, Seed::new(SEED))?;
    check_signer(alloc, &mut signer)
}

/// Checks a one-time signature of a parameter set.
fn check_leaf(alloc: Global, params: Params) -> io::Result<()> {
    let identifier = Identifier::new(IDENTIFIER);
    let seed = Seed::new(SEED);
    let public = public_hash(params, &identifier, 3, &seed);
    let signature = lm_ots::sign(alloc, params, &identifier, 3, &seed, MESSAGE)?;
    let found = candidate(params, &identifier, 3, MESSAGE, &signature);
    ensure(found == Some(public), wrong::CANDIDATE)
}

/// Checks the root of the standard's test case.
fn check_root(alloc: Global) -> io::Result<()> {
    let params = Params {
        width: Width::W8,
        height: TreeHeight::H5,
    };
    let tree = Tree::build(alloc, params, Identifier::new(IDENTIFIER), Seed::new(SEED))?;
    ensure(tree.public().as_bytes()[24..] == ROOT[..], wrong::ROOT)
}

/// Checks key pairs of both widths, and the standard's test case.
pub fn check(alloc: Global) -> io::Result<()> {
    for width in [Width::W4, Width::W8] {
        let params = Params {
            width,
            height: TreeHeight::H5,
        };
        check_params(alloc, params)?;
        check_leaf(alloc, params)?;
    }
    check_root(alloc)
}

//! The number of SHA-256 blocks that keys and signatures hash. The figures come from an independent program.

use crate::blocks::{blocks, key_generation_blocks, signature_blocks};
use lm_ots::{Identifier, Params, Seed, TreeHeight, Width};
use lms_tree::Tree;
use std::alloc::{AllocError, Global};

/// The message that is signed.
const MESSAGE: [u8; 64] = *b"sixty-four bytes, a message that each leaf of a tree signs once.";

/// The identifier of the key pair.
const IDENTIFIER: [u8; 16] = [5; 16];

const fn params_of(width: Width) -> Params {
    Params {
        width,
        height: TreeHeight::H5,
    }
}

/// The randomizer of the signature by leaf 3.
fn randomizer(alloc: Global, params: Params) -> Result<Vec<u8>, AllocError> {
    let tree = Tree::build(
        alloc,
        params,
        Identifier::new(IDENTIFIER),
        Seed::new([7; 32]),
    )?;
    let signature = tree.sign(alloc, 3, &MESSAGE)?;
    Vec::from_slice(alloc, signature.get(8..40).unwrap_or(&[]))
}

// A short message has one block up to 55 bytes.
#[test]
fn blocks_of_messages(rt: HostRuntime) {
    for (len, wanted) in [(0, 1), (55, 1), (56, 2), (119, 2), (120, 3), (65536, 1025)] {
        assert!(rt; blocks(len) == wanted, "{len}");
    }
}

#[test]
fn blocks_of_operations(rt: HostRuntime) {
    for (width, generation, signing, verification) in [
        (Width::W4, 35486, 565, 557),
        (Width::W8, 279_198, 3862, 4876),
    ] {
        let params = params_of(width);
        assert!(rt; key_generation_blocks(params) == generation);
        let randomizer = randomizer(rt.alloc(), params).expect(&rt, "a randomizer");
        let identifier = Identifier::new(IDENTIFIER);
        let found = signature_blocks(params, &identifier, 3, &randomizer, &MESSAGE);
        assert!(rt; (found.signing, found.verification) == (signing, verification));
    }
}

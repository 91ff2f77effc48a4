//! One-time signatures.

use super::vectors::{IDENTIFIER, MESSAGE, SEED};
use lm_ots::{
    Identifier, Params, Seed, TreeHeight, Width, candidate, public_hash, public_hashes, sign,
    signed_steps,
};
use sha2::{Digest, Sha256};
use std::alloc::Global;

// The expected values come from an independent program in Python, which also finds the roots in the RFC.
struct Expected {
    width: Width,
    length: usize,
    public: [u8; 32],
    signature: [u8; 32],
}

const NARROW: Expected = Expected {
    width: Width::W4,
    length: 2180,
    public: [
        0xaf, 0x62, 0x72, 0x5a, 0x8e, 0x54, 0x18, 0xdd, 0x19, 0x99, 0x32, 0xfe, 0xf0, 0x22, 0x8a,
        0x98, 0xc6, 0x15, 0x6a, 0xce, 0x25, 0x80, 0x8e, 0x43, 0x86, 0xdf, 0xdb, 0x69, 0x28, 0xeb,
        0x10, 0x61,
    ],
    signature: [
        0x40, 0xa3, 0xa8, 0xd3, 0x70, 0x32, 0x2f, 0x81, 0x05, 0x72, 0x16, 0x59, 0x19, 0x4e, 0x99,
        0x12, 0x08, 0x3a, 0x59, 0x03, 0xe2, 0xd3, 0x30, 0x2d, 0xf2, 0x64, 0xf9, 0x7d, 0x8c, 0xc5,
        0x0a, 0x48,
    ],
};

const WIDE: Expected = Expected {
    width: Width::W8,
    length: 1124,
    public: [
        0x35, 0xc3, 0x7c, 0xdd, 0x69, 0x02, 0x83, 0x6e, 0x91, 0x18, 0xd0, 0x95, 0x1b, 0xd3, 0x60,
        0xf8, 0x54, 0x56, 0x7e, 0xec, 0xbf, 0x7a, 0x78, 0xac, 0xe3, 0x4e, 0x00, 0x78, 0xca, 0x20,
        0x46, 0xe2,
    ],
    signature: [
        0x55, 0x80, 0x26, 0x33, 0x86, 0x0c, 0x49, 0x3c, 0xf2, 0x13, 0x3e, 0xa4, 0xa1, 0x88, 0x1d,
        0xbe, 0xcd, 0x17, 0x9e, 0x9b, 0x2c, 0x07, 0x09, 0x1e, 0xab, 0xef, 0x9d, 0x2b, 0x7f, 0x56,
        0x94, 0x98,
    ],
};

fn params_of(width: Width) -> Params {
    Params {
        width,
        height: TreeHeight::H5,
    }
}

// Whether that is the public hash of leaf 3.
fn is_public_hash(params: Params, expected: [u8; 32]) -> bool {
    let identifier = Identifier::new(IDENTIFIER);
    let seed = Seed::new(SEED);
    public_hash(params, &identifier, 3, &seed) == expected
        && public_hashes(params, &identifier, 0, &seed)[3] == expected
}

// Whether a signature leads to this public hash only for leaf 3 and its message.
fn leads_to(params: Params, signature: &[u8], public: [u8; 32]) -> bool {
    let identifier = Identifier::new(IDENTIFIER);
    candidate(params, &identifier, 3, MESSAGE, signature) == Some(public)
        && candidate(params, &identifier, 4, MESSAGE, signature) != Some(public)
        && candidate(params, &identifier, 3, b"other", signature) != Some(public)
}

// What this leaf signs.
fn signed(alloc: Global, params: Params, leaf: u32) -> Option<Vec<u8>> {
    let identifier = Identifier::new(IDENTIFIER);
    sign(alloc, params, &identifier, leaf, &Seed::new(SEED), MESSAGE).ok()
}

#[test]
fn signatures_of_both_widths(rt: HostRuntime) {
    for expected in [&WIDE, &NARROW] {
        let width = expected.width;
        let params = params_of(width);
        assert!(rt; is_public_hash(params, expected.public), "{width:?}");
        let signature = signed(rt.alloc(), params, 3).expect(&rt, "a signature");
        assert!(rt; signature.len() == expected.length, "{width:?}");
        assert!(rt;
            Sha256::digest(&signature) == expected.signature,
            "{width:?}"
        );
        assert!(rt; leads_to(params, &signature, expected.public), "{width:?}");
    }
}

// The expected counts come from the same program.
#[test]
fn steps_of_signatures(rt: HostRuntime) {
    for (width, leaf, steps) in [
        (Width::W4, 3, 495),
        (Width::W4, 22, 585),
        (Width::W8, 4, 3315),
        (Width::W8, 28, 4845),
    ] {
        let params = params_of(width);
        let signature = signed(rt.alloc(), params, leaf).expect(&rt, "a signature");
        let randomizer = signature.get(4..36).unwrap_or(&[]);
        let identifier = Identifier::new(IDENTIFIER);
        assert!(rt;
            signed_steps(params, &identifier, leaf, randomizer, MESSAGE) == steps,
            "{width:?} {leaf}"
        );
    }
}

#[test]
fn other_lengths_and_types(rt: HostRuntime) {
    let identifier = Identifier::new(IDENTIFIER);
    let params = Params {
        width: Width::W8,
        height: TreeHeight::H10,
    };
    let mut signature = [0u8; 1125];
    signature[3] = 4;
    assert!(rt; candidate(params, &identifier, 0, MESSAGE, &signature[..1124]).is_some());
    assert!(rt; candidate(params, &identifier, 0, MESSAGE, &signature) == None);
    assert!(rt; candidate(params, &identifier, 0, MESSAGE, &signature[..1123]) == None);
    signature[3] = 3;
    assert!(rt; candidate(params, &identifier, 0, MESSAGE, &signature[..1124]) == None);
}

#[test]
fn parameter_sets(rt: HostRuntime) {
    let set = Params {
        width: Width::W4,
        height: TreeHeight::H10,
    };
    assert!(rt; Params::from_codes(6, 3) == Some(set));
    assert!(rt; Params::from_codes(7, 3) == None);
    assert!(rt; Params::from_codes(5, 5) == None);
    assert!(rt; set.leaves() == 1024);
    assert!(rt; set.ots_len() == 2180);
    assert!(rt; set.signature_len() == 2508);
}

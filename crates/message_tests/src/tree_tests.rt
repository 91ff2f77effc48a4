//! Trees over one-time signatures.

use super::vectors::{IDENTIFIER, MESSAGE, ROOT, SEED};
use lm_ots::{Identifier, Params, Seed, TreeHeight, Width};
use lms_tree::{KeyFault, PublicKey, Tree, verify};
use sha2::{Digest, Sha256};
use std::alloc::Global;

// The tree of height 10 in the same test case.
const TALL_IDENTIFIER: [u8; 16] = [
    0xd0, 0x8f, 0xab, 0xd4, 0xa2, 0x09, 0x1f, 0xf0, 0xa8, 0xcb, 0x4e, 0xd8, 0x34, 0xe7, 0x45, 0x34,
];

const TALL_SEED: [u8; 32] = [
    0x55, 0x8b, 0x89, 0x66, 0xc4, 0x8a, 0xe9, 0xcb, 0x89, 0x8b, 0x42, 0x3c, 0x83, 0x44, 0x3a, 0xae,
    0x01, 0x4a, 0x72, 0xf1, 0xb1, 0xab, 0x5c, 0xc8, 0x5c, 0xf1, 0xd8, 0x92, 0x90, 0x3b, 0x54, 0x39,
];

const TALL_ROOT: [u8; 32] = [
    0x32, 0xa5, 0x88, 0x85, 0xcd, 0x9b, 0xa0, 0x43, 0x12, 0x35, 0x46, 0x6b, 0xff, 0x96, 0x51, 0xc6,
    0xc9, 0x21, 0x24, 0x40, 0x4d, 0x45, 0xfa, 0x53, 0xcf, 0x16, 0x1c, 0x28, 0xf1, 0xad, 0x5a, 0x8e,
];

fn built(alloc: Global, width: Width, height: TreeHeight) -> Option<Tree> {
    let params = Params { width, height };
    Tree::build(alloc, params, Identifier::new(IDENTIFIER), Seed::new(SEED)).ok()
}

fn small(alloc: Global, width: Width) -> Option<Tree> {
    built(alloc, width, TreeHeight::H5)
}

// Whether this is the key of the small tree of width 8, and is read back from its bytes.
fn is_small_key(key: &PublicKey) -> bool {
    let bytes = key.as_bytes();
    &bytes[..8] == [0, 0, 0, 5, 0, 0, 0, 4].as_slice()
        && &bytes[8..24] == IDENTIFIER.as_slice()
        && &bytes[24..] == ROOT.as_slice()
        && key.identifier() == Identifier::new(IDENTIFIER)
        && PublicKey::from_bytes(bytes).ok() == Some(*key)
}

#[test]
fn key_of_a_small_tree(rt: HostRuntime) {
    let tree = small(rt.alloc(), Width::W8).expect(&rt, "a tree");
    assert!(rt; is_small_key(&tree.public()));
    assert!(rt; tree.public().params() == tree.params());
    assert!(rt; tree.leaves() == 32);
}

// The signature with this leaf, if there is such a leaf.
fn signed(alloc: Global, tree: &Tree, leaf: u32) -> Option<Vec<u8>> {
    if leaf >= tree.leaves() {
        return None;
    }
    tree.sign(alloc, leaf, MESSAGE).ok()
}

fn tall(alloc: Global) -> Option<Tree> {
    let params = Params {
        width: Width::W4,
        height: TreeHeight::H10,
    };
    let identifier = Identifier::new(TALL_IDENTIFIER);
    Tree::build(alloc, params, identifier, Seed::new(TALL_SEED)).ok()
}

fn is_tall_key(key: &PublicKey) -> bool {
    let bytes = key.as_bytes();
    &bytes[..8] == [0, 0, 0, 6, 0, 0, 0, 3].as_slice() && &bytes[24..] == TALL_ROOT.as_slice()
}

// Whether the signature with this leaf has `len` bytes and verifies.
fn signs_with(alloc: Global, tree: &Tree, leaf: u32, len: usize) -> bool {
    match signed(alloc, tree, leaf) {
        Some(signature) => { signature.len() == len && verify(&tree.public(), MESSAGE, &signature) }
        None => false,
    }
}

#[test]
fn key_of_a_tall_tree(rt: HostRuntime) {
    let tree = tall(rt.alloc()).expect(&rt, "a tree");
    assert!(rt; is_tall_key(&tree.public()));
    assert!(rt; tree.leaves() == 1024);
    assert!(rt; signs_with(rt.alloc(), &tree, 1000, 2508));
}

// The digests of the signature and of the path come from an independent program in Python.
#[test]
fn signature_of_a_small_tree(rt: HostRuntime) {
    let tree = small(rt.alloc(), Width::W8).expect(&rt, "a tree");
    let signature = signed(rt.alloc(), &tree, 3).expect(&rt, "a signature");
    assert!(rt; signature.len() == 1292);
    let expected: [u8; 32] = [
        0x8f, 0xb0, 0x54, 0x66, 0x1a, 0x3a, 0x7f, 0x70, 0x97, 0x0f, 0x1c, 0xec, 0xf4, 0x42, 0x28,
        0x40, 0xb8, 0xa2, 0x69, 0x5e, 0x03, 0x4c, 0x3d, 0x6b, 0x99, 0xc7, 0x92, 0x60, 0x1e, 0x23,
        0x5f, 0xf1,
    ];
    assert!(rt; Sha256::digest(&signature) == expected);
    let path = tree.path(rt.alloc(), 3).expect(&rt, "a path");
    assert!(rt; path.len() == 160);
    let expected: [u8; 32] = [
        0xf7, 0x50, 0x77, 0xa8, 0xb8, 0xd7, 0x58, 0xbf, 0xf7, 0x94, 0xff, 0xed, 0xad, 0x63, 0xc1,
        0xf7, 0x29, 0x3f, 0x1a, 0xb0, 0x5b, 0x5c, 0x80, 0x07, 0x72, 0x4b, 0xd3, 0x9b, 0x08, 0xb7,
        0x85, 0x49,
    ];
    assert!(rt; Sha256::digest(&path) == expected);
}

// Whether a signature has this length and verifies, and doesn't with one byte more or one byte less.
fn has_one_length(key: &PublicKey, signature: &mut Vec<u8>, len: usize) -> bool {
    if signature.len() != len || !verify(key, MESSAGE, signature) {
        return false;
    }
    if signature.push(0).is_err() || verify(key, MESSAGE, signature) {
        return false;
    }
    signature.truncate(len.saturating_sub(1));
    !verify(key, MESSAGE, signature)
}

#[test]
fn only_what_was_signed_verifies(rt: HostRuntime) {
    let tree = small(rt.alloc(), Width::W4).expect(&rt, "a tree");
    let mut signature = signed(rt.alloc(), &tree, 31).expect(&rt, "a signature");
    assert!(rt; !verify(&tree.public(), b"The powers delegated", &signature));
    assert!(rt; has_one_length(&tree.public(), &mut signature, 2348));
}

// The leaf number, both type codes, the randomizer, a chain and the path are all checked.
#[test]
fn no_changed_byte_verifies(rt: HostRuntime) {
    let tree = small(rt.alloc(), Width::W8).expect(&rt, "a tree");
    let key = tree.public();
    for place in [3usize, 2, 7, 8, 39, 40, 1127, 1131, 1132, 1291] {
        let mut signature = signed(rt.alloc(), &tree, 3).expect(&rt, "a signature");
        assert!(rt; signature.len() == 1292);
        assert!(rt; place < 1292);
        signature[place] ^= 1;
        assert!(rt; !verify(&key, MESSAGE, &signature), "{place}");
    }
}

#[test]
fn another_width_does_not_verify(rt: HostRuntime) {
    let wide = small(rt.alloc(), Width::W8).expect(&rt, "a tree");
    let narrow = small(rt.alloc(), Width::W4).expect(&rt, "a tree").public();
    let signature = signed(rt.alloc(), &wide, 0).expect(&rt, "a signature");
    assert!(rt; verify(&wide.public(), MESSAGE, &signature));
    assert!(rt; !verify(&narrow, MESSAGE, &signature));
}

// Whether that holds of a signature with this parameter set.
fn signs_with_one_length(
    alloc: Global,
    width: Width,
    height: TreeHeight,
    len: usize,
) -> Option<bool> {
    let tree = built(alloc, width, height)?;
    let mut signature = signed(alloc, &tree, 0)?;
    Some(has_one_length(&tree.public(), &mut signature, len))
}

// With each parameter set a signature has one length; one byte more or less, and it doesn't verify.
#[test]
fn lengths(rt: HostRuntime) {
    for (width, height, len) in [
        (Width::W8, TreeHeight::H5, 1292),
        (Width::W4, TreeHeight::H5, 2348),
        (Width::W8, TreeHeight::H10, 1452),
        (Width::W4, TreeHeight::H10, 2508),
    ] {
        assert!(rt; Params { width, height }.signature_len() == len, "{len}");
        let has_one_length = signs_with_one_length(rt.alloc(), width, height, len);
        assert!(rt; has_one_length == Some(true), "{len}");
    }
}

#[test]
fn bytes_that_are_no_key(rt: HostRuntime) {
    let mut bytes = [0; 56];
    assert!(rt; PublicKey::from_bytes(&bytes[..55]).err() == Some(KeyFault::Length));
    assert!(rt; PublicKey::from_bytes(&[0; 57]).err() == Some(KeyFault::Length));
    bytes[3] = 7;
    bytes[7] = 4;
    assert!(rt; PublicKey::from_bytes(&bytes).err() == Some(KeyFault::Scheme));
    bytes[3] = 6;
    bytes[7] = 5;
    assert!(rt; PublicKey::from_bytes(&bytes).err() == Some(KeyFault::Scheme));
    bytes[7] = 4;
    let key = PublicKey::from_bytes(&bytes).ok();
    assert!(rt;
        key.map(|k| k.params())
            == Some(Params {
                width: Width::W8,
                height: TreeHeight::H10
            })
    );
}

//! The hashes at the nodes of a tree.
ghost use Rattle.std.specs.Prelude.{◌≡◌, ℕ, ◌==◌, ◌+◌, ◌<◌, ◌≤◌, ◌^◌, ◌/◌, ◌%◌, [], length, slice_index_or, if◌then◌else◌};
ghost use Rattle.ledger_model.specs.Signatures.{leaf_hash, node_hash, sibling};

use lm_ots::{Identifier, hasher_at};
use sha2::Digest;

/// Marks the hash of a leaf (RFC 8554, section 5.3).
const D_LEAF: u16 = 0x8282;

/// Marks the hash of an inner node (RFC 8554, section 5.3).
const D_INTR: u16 = 0x8383;

/// The hash of the leaf with this node number, computed from its one-time public value.
pub(crate) fn leaf_hash(identifier: &Identifier, number: u32, key: &[u8; 32]) -> [u8; 32]
    ensures { result ≡ leaf_hash identifier.now number key.now }
{
    let mut hasher = hasher_at(identifier, number, D_LEAF);
    hasher.update(key);
    hasher.finalize()
}

/// Stores the hashes of eight consecutive leaves, the first of which has this node number, at their indices among all nodes.
pub(crate) fn put_leaves(
    nodes: &mut Vec<[u8; 32]>,
    identifier: &Identifier,
    number: u32,
    keys: &[[u8; 32]; 8],
)
    requires inside { number + 8 ≤ length nodes.old.items }
    requires short { number + 8 ≤ 2 ^ 32 }
    ensures many { length nodes.new.items ≡ length nodes.old.items }
    ensures put { (k : ℕ) → k < 8 → slice_index_or nodes.new.items (number + k) []
        ≡ leaf_hash identifier.now (number + k) (slice_index_or keys.now k []) }
    ensures others { (r : ℕ) → r < number
        → slice_index_or nodes.new.items r [] ≡ slice_index_or nodes.old.items r [] }
{
    for lane in 0..8 {
        let leaf = number + lane;
        nodes[leaf as usize] = leaf_hash(identifier, leaf, &keys[lane as usize]);
    }
}

/// The hash of the inner node with this number, computed from its two children.
pub(crate) fn node_hash(identifier: &Identifier, number: u32, left: &[u8], right: &[u8]) -> [u8; 32]
    ensures { result ≡ node_hash identifier.now number left.now right.now }
{
    let mut hasher = hasher_at(identifier, number, D_INTR);
    hasher.update(left);
    hasher.update(right);
    hasher.finalize()
}

/// The sibling of a node.
pub(crate) fn sibling(number: u32) -> u32
    requires { number < 2 ^ 31 }
    ensures { result ≡ sibling number }
{
    if number % 2 == 0 {
        number + 1
    } else {
        number - 1
    }
}

/// The hash of a node's parent, computed from the node's hash and its sibling's.
pub(crate) fn parent_hash(
    identifier: &Identifier,
    number: u32,
    hash: &[u8],
    beside: &[u8],
) -> [u8; 32]
    ensures { result ≡ (if number % 2 == 0
        then node_hash identifier.now (number / 2) hash.now beside.now
        else node_hash identifier.now (number / 2) beside.now hash.now) }
{
    if number % 2 == 0 {
        node_hash(identifier, number / 2, hash, beside)
    } else {
        node_hash(identifier, number / 2, beside, hash)
    }
}

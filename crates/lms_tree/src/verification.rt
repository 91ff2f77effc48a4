//! Verifies a signature.
ghost use Rattle.std.specs.Prelude.{◌≡◌, ◌+◌, ◌*◌, length, take, drop};
ghost use Rattle.std.specs.Int.{w32, from_be_bytes};
ghost use Rattle.ledger_model.specs.Signatures.{ots_len, root_above, signature_len, verifies};
ghost use Rattle.lm_ots.specs.Parameters.{levels_of, numbers_of};

use crate::PublicKey;
use crate::nodes::{leaf_hash, parent_hash};
use lm_ots::{Identifier, Params, TreeHeight, candidate, read_u32};

/// Whether the signature is valid for the message under the key (RFC 8554, section 5.4.2).
///
/// Its length, its two type codes and its leaf number must fit the key. Allocates nothing.
pub fn verify(key: &PublicKey, message: &[u8], signature: &[u8]) -> bool
    ensures { result ≡ verifies key.now message.now signature.now }
{
    let params = key.params();
    if signature.len() != params.signature_len() {
        return false;
    }
    let parts = cut(params, signature);
    if parts.lms_code != params.height.code() || parts.leaf >= params.leaves() {
        return false;
    }
    let identifier = key.identifier();
    let Some(leaf_key) = candidate(params, &identifier, parts.leaf, message, parts.ots) else {
        return false;
    };
    let number = params.leaves() + parts.leaf;
    let hash = leaf_hash(&identifier, number, &leaf_key);
    let root = root_above(&identifier, params.height, parts.path, number, hash);
    root.as_slice() == &key.as_bytes()[24..]
}

/// The parts of a signature (RFC 8554, section 5.4).
#[derive(Clone, Copy)]
struct Parts<'a> {
    leaf: u32,
    ots: &'a [u8],
    lms_code: u32,
    path: &'a [u8],
}

/// The parts of a signature that has the parameter set's length.
fn cut<'a>(params: Params, signature: &'a [u8]) -> Parts<'a>
    requires { length signature.now ≡ signature_len (numbers_of params) }
    ensures leaf { result.leaf ≡ from_be_bytes w32 (take 4 signature.now) }
    ensures ots { result.ots.now ≡ take (ots_len (numbers_of params)) (drop 4 signature.now) }
    ensures ots_len { length result.ots.now ≡ ots_len (numbers_of params) }
    ensures lms_code { result.lms_code
        ≡ from_be_bytes w32 (take 4 (drop (4 + ots_len (numbers_of params)) signature.now)) }
    ensures path { result.path.now ≡ drop 4 (drop (4 + ots_len (numbers_of params)) signature.now) }
    ensures path_len { length result.path.now ≡ 32 * (numbers_of params).height }
{
    let (leaf, rest) = signature.split_at(4);
    let (ots, rest) = rest.split_at(params.ots_len());
    let (code, path) = rest.split_at(4);
    Parts {
        leaf: read_u32(leaf),
        ots,
        lms_code: read_u32(code),
        path,
    }
}

/// The root that a leaf's hash and the hashes of a path lead to (RFC 8554, section 5.4.2).
fn root_above(
    identifier: &Identifier,
    height: TreeHeight,
    path: &[u8],
    leaf_number: u32,
    leaf_hash: [u8; 32],
) -> [u8; 32]
    requires { length path.now ≡ 32 * levels_of height }
    ensures { result
        ≡ root_above identifier.now path.now (levels_of height) 0 leaf_number leaf_hash }
{
    let levels = height.levels();
    let mut number = leaf_number;
    let mut hash = leaf_hash;
    for level in 0..levels {
        let start = 32 * usize::from(level);
        hash = parent_hash(identifier, number, &hash, &path[start..start + 32]);
        number /= 2;
    }
    hash
}
